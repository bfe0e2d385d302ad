//! Programs that are refused.

pub(crate) const ROWS: &str = r#"
# A program has a main composite.
 => E1 at 0
type T = int8; => E1 at 0
composite A {} composite B {} => E1 at 0
composite A(output O) {graph stream<T> O = FileSource();} => E1 at 0
composite A(input I) {} => E1 at 0
composite A {} composite Main(input I) {} => E1 at 0
composite A {param expression<int64> $x;} => E1 at 0
composite A {param expression<int64> $x: 1l; expression<int64> $y;} => E1 at 0
composite A {param expression<int64> $x: 1l;} =>  |  | 0:

# What reaches itself is refused.
composite A {graph () as X = A();} => E2 at 19 A
composite Main {} composite A {graph () as X = B();} composite B {graph () as X = A();} => E2 at 37 A
composite Main {} composite A {graph () as X = Main(); () as Y = B();} composite B {graph () as X = C();} composite C {graph () as X = B(); () as Y = A();} => E2 at 55 A
composite Main {graph () as X = A();} composite A {graph () as X = A();} => E2 at 57 A
int8 f() {return f();} composite A {} => E2 at 17 f
composite A {graph () as X = A();} int8 f(int8 a) {return g(a);} int8 g(int8 a) {return g2(g(a));} int8 g2(int8 a) {return a;} => E2 at 91 g
int8 f() {return g() + h();} int8 g() {return 1b;} int8 h() {if (true) {return f();} return h();} composite A {} => E2 at 23 f
int8 f() {return 1b;} int8 g() {return f() + f();} composite A {} =>  |  | 0:
# a function in its own argument
composite A {graph () as X = A();} void f() {size(f());} => E2 at 50 f
# a circle behind a chain
void a() {b();} void b() {c();} void c() {d();} void d() {b();} composite Main {} => E2 at 26 b
# by the value of a variable
int8 f() {int8 a = f(); return a;} composite A {} => E2 at 19 f
# by the right side of an assignment
int8 f() {mutable int8 a = 1b; a = f(); return a;} composite A {} => E2 at 35 f
# by its left side
int8 f() {mutable list<int8> l; l[f()] = 1b; return 1b;} composite A {} => E2 at 34 f
# the left side comes first
int8 f() {mutable list<int8> l; l[f()] = f(); return 1b;} composite A {} => E2 at 34 f
# by a condition
boolean f() {if (f()) {} return true;} composite A {} => E2 at 17 f
# by a later condition
boolean f() {if (true) {} else if (f()) {} return true;} composite A {} => E2 at 35 f
# by an else
void f() {if (true) {} else {f();}} composite A {} => E2 at 29 f
# by the condition of a while
boolean f() {while (f()) {} return true;} composite A {} => E2 at 20 f
# by its body
void f() {while (true) {f();}} composite A {} => E2 at 24 f
# by the list of a for
list<int8> f() {for (int8 i in f()) {} return [1b];} composite A {} => E2 at 31 f
# by its body
void f(list<int8> l) {for (int8 i in l) {f(l);}} composite A {} => E2 at 41 f
# no circle
void a() {b();} void b() {size([1]);} composite Main {graph () as X = B();} composite B {graph stream<T> F = Filter(S); stream<T> S = FileSource();} => Filter X.F(1) 0; FileSource X.S() 1 | 1 0 | 0:; 1@0.0: 0 1

# A name is declared once in one place.
type T = int32; type T = int32; => E3 at 21 T
composite A {} void A() {} => E3 at 20 A
void f() {} composite B {} type f = int8; => E3 at 32 f
composite A {graph stream<T> B = FileSource(); stream<T> B = FileSource();} => E3 at 57 B
composite A {graph stream<T> B = FileSource(); () as B = FileSink(B);} => E3 at 53 B
composite A {graph stream<T> B as B = FileSource();} => E3 at 34 B
composite A {graph stream<T> B as C = FileSource(); () as C = FileSink(B);} => E3 at 58 C
composite A(output B; input B) {} => E3 at 28 B
composite A(output B, B) {} => E3 at 22 B
composite A(input I) {graph stream<T> I = Filter(I);} => E3 at 38 I
composite A {type T = int8; T = int16;} => E3 at 28 T
composite A {param expression<int8> $x: 1b; expression<int8> $x: 2b;} => E3 at 61 x
type T = int8 a, int8 a; composite A {} => E3 at 22 a
type T = tuple<int8 a, int8 a>; composite A {} => E3 at 28 a
composite A {graph stream<int8 a, int8 a> B = FileSource();} => E3 at 39 a
void f(int8 a, int8 a) {} composite A {} => E3 at 20 a
void f() {int8 a = 1b; int8 a = 2b;} composite A {} => E3 at 28 a
void f() {int8 a = 1b; {int8 a = 2b;} if (true) {int8 b = 1b; int8 b = 1b;}} composite A {} => E3 at 67 b
composite A {graph stream<T> B = FileSource(); () as C = Custom(B) {logic state: {int8 s = 1b; int8 s = 2b;}}} => E3 at 100 s
composite A {type A = int8; param expression<int8> $A: 1b;} => no tree
composite A {param expression<int8> $A: 1b; type A = int8; graph stream<int8 A> A = FileSource();} => FileSource A() 0 | 0 | 0: 0
# definitions are one set
type a = int32; composite a {} => E3 at 26 a
# a function named as a built-in call
void currentPunct() {} composite Main {} => E3 at 5 currentPunct
# an output shares its name with one stream alone
composite A(output s) {graph (stream<T> s; stream<T> s) = Split(r) {param index: 0;} stream<T> r = FileSource();} => E3 at 53 s
# an alias shares no name
composite A(output s) {graph () as s = Custom();} => E3 at 35 s
# the later port in the text
composite A(input s; output s) {} => E3 at 28 s
# types of a composite come before its parameters
composite A {param expression<int8> $p: 1b; expression<int8> $p: 1b; type t = int8; t = int8;} => E3 at 84 t
# parameters of a composite come before attributes
type t = tuple<int8 a, int8 a>; composite A {param expression<int8> $p: 1b; expression<int8> $p: 1b;} => E3 at 93 p
# of attributes the first in the text counts
type t = tuple<tuple<int8 b, int8 b> a, int8 a>; composite A {} => E3 at 34 b
type t = tuple<int8 b, int8 b>; type u = tuple<int8 a, int8 a>; composite A {} => E3 at 28 b
# parameters and variables of a function are two sets
void f(int8 a) {int8 a = 1b;} composite A {} =>  |  | 0:
# variables of a handler
composite A {graph stream<int8 n> B = FileSource(); () as C = Custom(B) {logic onTuple B: {int8 a = 1b; int8 a = 2b;}}} => E3 at 109 a
# of a block in a handler of markers
composite A {graph stream<int8 n> B = FileSource(); () as C = Custom(B) {logic onPunct B: {int8 a; {int8 b; int8 a; int8 b;}}}} => E3 at 121 b
# of a later handler
composite A {graph stream<int8 n> B = FileSource(); () as C = Custom(B) {logic state: int8 a = 1b; onTuple B: {int8 a; int8 b;} onPunct B: {int8 a; int8 a;}}} => E3 at 153 a
# two handlers have sets of their own
composite A {graph stream<int8 n> B = FileSource(); () as C = Custom(B) {logic onTuple B: {int8 a;} onPunct B: {int8 a;}}} => FileSource B() 0; Custom C(0) | 0 1 | 0: 0
# variables in a while
void f() {int8 a; while (true) {int8 b; int8 b;}} composite A {} => E3 at 45 b
# in a for
void f(list<int8> l) {for (int8 i in l) {int8 a; int8 a;}} composite A {} => E3 at 54 a
# in an else
void f() {if (true) {int8 a;} else {int8 a; int8 a;}} composite A {} => E3 at 49 a
# the variable of a loop isn't one of its body
void f(list<int8> l) {for (int8 a in l) {int8 a;}} composite A {} =>  |  | 0:
# the shape of an output of a head
composite A(output stream<int8 a, int8 a> O) {graph stream<T> O = FileSource();} composite Main {} => E3 at 39 a
# of an input of a head
composite A(input stream<int8 a, int8 a> I) {} composite Main {} => E3 at 38 a
# the type of a parameter of a composite
composite A {param expression<tuple<int8 a, int8 a>> $p: {a = 1b};} => E3 at 49 a
# a type of a composite
composite A {type T = int8 a, int8 a;} => E3 at 35 a
# the type of a result
tuple<int8 a, int8 a> f() {} composite A {} => E3 at 19 a
# of a parameter of a function
void f(tuple<int8 a, int8 a> p) {} composite A {} => E3 at 26 a
# of a variable
void f() {mutable tuple<int8 a, int8 a> t;} composite A {} => E3 at 37 a
# of the variable of a loop
void f() {for (tuple<int8 a, int8 a> t in []) {}} composite A {} => E3 at 34 a
# of a variable of a state
composite A {graph stream<int8 n> B = FileSource(); () as C = Custom(B) {logic state: tuple<int8 a, int8 a> t;}} => E3 at 105 a
# in a list
type T = list<tuple<int8 a, int8 a>>; composite A {} => E3 at 33 a
# in the key of a map
type T = map<tuple<int8 a, int8 a>, int8>; composite A {} => E3 at 32 a
# in the value of a map
type T = map<int8, list<tuple<int8 a, int8 a>>>; composite A {} => E3 at 43 a

# An operator that waits for itself is refused.
composite M { graph stream<int32 a> A = Filter(B) { } stream<int32 a> B = Filter(A) { } } => E4 at 20 A
composite M {graph stream<T> S = FileSource(); stream<T> A = Filter(A);} => E4 at 47 A
composite M {graph stream<T> S = FileSource(); stream<T> B = Filter(S); stream<T> C = Union(D; S); stream<T> D as E = Filter(C);} => E4 at 72 C
composite M {graph stream<T> D as E = Filter(C); stream<T> C = Union(D; S); stream<T> S = FileSource();} => E4 at 19 D
composite M {graph () as X = FileSink(A); stream<T> A = Filter(A);} => E4 at 19 X
composite C(output O; input I) {graph stream<T> O = Filter(I);} composite Main {graph stream<T> A = C(A);} => E4 at 38 A.O
composite M {graph () as X = FileSink(S); stream<T> S = FileSource(); (stream<T> A; stream<T> B) = Split(B) {param index: 0;}} => E4 at 70 A
# a sink behind a loop of two
composite M {graph stream<T> A = FileSource(); stream<T> B = Filter(C, A); stream<T> C = Filter(B); () as D = FileSink(C);} => E4 at 47 B

# A sink has a file of its own.
composite M {graph stream<T> S = FileSource() {param file: "a";} () as X = FileSink(S) {param file: "a";}} => E5 at 65 a
composite M {graph stream<T> S = FileSource() {param file: "a";} () as X = FileSink(S) {param file: "b";} () as Y = FileSink(S) {param file: "b";}} => E5 at 106 b
composite M {graph () as X = FileSink(S) {param file: "a";} stream<T> S = FileSource() {param file: "a";} } => E5 at 60 a
composite M {graph stream<T> S = FileSource() {param file: "a";} stream<T> R = FileSource() {param file: "a";}} => FileSource S() 0; FileSource R() 1 | 0 1 | 0: 0 1
composite M {graph stream<T> S = FileSource() {param file: "a";} () as X = FileSink(S) {param file: "A";} () as Y = FileSink(S) {param file: "a ";}} => FileSource S() 0; FileSink X(0); FileSink Y(0) | 0 1 2 | 0: 0
composite C(input I) {param expression<rstring> $f: "c"; graph () as X = FileSink(I) {param file: $f;}} composite Main {graph stream<T> S = FileSource() {param file: "a";} () as A = C(S) {param f: "b";} () as B = C(S);} => FileSource S() 0; FileSink A.X(0); FileSink B.X(0) | 0 1 2 | 1: 0; 0@0.1: (1 from 0); 0@0.2: (1 from 0)
composite C(input I) {param expression<rstring> $f: "a"; graph () as X = FileSink(I) {param file: $f;}} composite Main {graph stream<T> S = FileSource() {param file: "a";} () as A = C(S) {param f: "b";} () as B = C(S);} => E5 at 63 a
composite C(input I) {param expression<rstring> $f: "c"; graph () as X = FileSink(I) {param file: $f;}} composite Main {param expression<rstring> $g: "a"; graph stream<T> S = FileSource() {param file: "a";} () as A = C(S) {param f: $g;}} => E5 at 63 a
# behind two others
files: () as X = FileSink(I) {param file: 'a';} () as Y = FileSink(I) {param file: 'b';} () as Z = FileSink(I) {param file: 'a';} => E5 at 222 a
files: stream<T> X = FileSource() {param file: 'a';} () as Y = FileSink(I) {param file: 'a';} => E5 at 186 a
files: () as X = FileSink(I) {param file: 'a';} stream<T> Y = FileSource() {param file: 'a';} => E5 at 181 a
files: stream<T> X = FileSource() {param file: 'a';} stream<T> Y = FileSource() {param file: 'a';} => FileSource S() 0; FileSource A.X() 1; FileSource A.Y() 2 | 0 1 2 | 1: 0; 0@0.1: 1 2 (1 from 0)
# a Filter has no file
files: () as X = FileSink(I) {param file: 'a';} stream<T> Y = Filter(I) {param file: 'a';} => FileSource S() 0; FileSink A.X(0); Filter A.Y(0) 1 | 0 1 2 | 1: 0; 0@0.1: 1 (1 from 0)
# a default of a default
files: () as X = FileSink(I) {param file: $first;} () as Y = FileSink(I) {param file: $second;} () as Z = FileSink(I) {param file: 'd';} => E5 at 184 d
# a default that leads back to itself
files: () as X = FileSink(I) {param file: $third;} () as Y = FileSink(I) {param file: $third;} => FileSource S() 0; FileSink A.X(0); FileSink A.Y(0) | 0 1 2 | 1: 0; 0@0.1: (1 from 0)
# a default of an argument
composite C(input I) {param expression<rstring> $first: 'd'; expression<rstring> $second: $first; expression<rstring> $third: $third; graph () as X = FileSink(I) {param file: 'd';} () as Y = FileSink(I) {param file: 'x';} () as Z = FileSink(I) {param file: $second;}} composite Main {graph stream<T> S = FileSource(); () as A = C(S) {param first: 'x';}} => E5 at 222 x
composite C(input I) {param expression<rstring> $first: 'd'; expression<rstring> $second: $first; expression<rstring> $third: $third; graph () as X = FileSink(I) {param file: 'd';} () as Y = FileSink(I) {param file: 'x';} () as Z = FileSink(I) {param file: $second;}} composite Main {graph stream<T> S = FileSource(); () as A = C(S) {param first: 'y';}} => FileSource S() 0; FileSink A.X(0); FileSink A.Y(0); FileSink A.Z(0) | 0 1 2 3 | 1: 0; 0@0.1: (1 from 0)
# an argument that leads back to itself
composite C(input I) {param expression<rstring> $first: 'd'; expression<rstring> $second: $first; expression<rstring> $third: $third; graph () as X = FileSink(I) {param file: 'd';} () as Y = FileSink(I) {param file: 'x';} () as Z = FileSink(I) {param file: $second;}} composite Main {param expression<rstring> $second: $second; graph stream<T> S = FileSource(); () as A = C(S) {param first: $second;}} => FileSource S() 0; FileSink A.X(0); FileSink A.Y(0); FileSink A.Z(0) | 0 1 2 3 | 1: 0; 0@0.1: (1 from 0)

# A name that is used is declared.
composite M {graph () as X = Foo();} => E7 at 29 Foo
composite M {graph () as X = M2(Y);} composite M3(input I) {} => E7 at 29 M2
composite M {graph () as X = FileSink(S);} => E7 at 38 S
composite M {graph stream<T> S = FileSource(); stream<T> A = Union(S; S, B);} => E7 at 73 B
composite M {graph stream<T> S as A = FileSource(); () as X = FileSink(A);} => E7 at 71 A
composite C(input I) {graph () as X = FileSink(S);} composite Main {graph stream<T> S = FileSource(); () as A = C(S);} => E7 at 47 S
composite C(output O) {graph stream<T> O = FileSource(); stream<T> P = FileSource();} composite Main {graph stream<T> A = C(); () as X = FileSink(P);} => E7 at 146 P
composite M {graph stream<T> S = FileSource() {param file: $f;}} => E7 at 59 f
composite M {graph stream<T> S = FileSource() {config x: $f;}} => E7 at 57 f
composite C {param expression<int64> $x;} composite Main {graph () as A = C() {param x: 1l + $x;}} => E7 at 93 x
composite M {graph stream<T> S = FileSource(); stream<T> A = Functor(S) {output A: a = -$f;}} => E7 at 88 f
composite M {graph stream<T> S = FileSource(); () as A = Custom(S) {logic onTuple S: {g($f);}}} => E7 at 88 f
composite Main {} composite A {graph () as X = Foo();} =>  |  | 0:
composite M {graph stream<T> A = Filter(C); stream<T> B = FileSource();} => E7 at 40 C
# a parameter in a window
composite M {graph stream<T> S = FileSource(); stream<T> A = Aggregate(S) {window S: tumbling, count($f);}} => E7 at 101 f
# in the value of a state
composite M {graph stream<T> S = FileSource(); () as A = Custom(S) {logic state: int8 k = [1, -$f];}} => E7 at 95 f
# in each statement
composite M {graph stream<T> S = FileSource(); () as A = Custom(S) {logic onTuple S: {int8 a = $f;}}} => E7 at 95 f
composite M {graph stream<T> S = FileSource(); () as A = Custom(S) {logic onTuple S: {a = $f;}}} => E7 at 90 f
composite M {graph stream<T> S = FileSource(); () as A = Custom(S) {logic onTuple S: {l[$f] += 1;}}} => E7 at 88 f
composite M {graph stream<T> S = FileSource(); () as A = Custom(S) {logic onTuple S: {if ($f) {}}}} => E7 at 90 f
composite M {graph stream<T> S = FileSource(); () as A = Custom(S) {logic onTuple S: {if (true) {} else if ($f) {}}}} => E7 at 108 f
composite M {graph stream<T> S = FileSource(); () as A = Custom(S) {logic onTuple S: {if (true) {} else {g($f);}}}} => E7 at 107 f
composite M {graph stream<T> S = FileSource(); () as A = Custom(S) {logic onTuple S: {while ($f) {}}}} => E7 at 93 f
composite M {graph stream<T> S = FileSource(); () as A = Custom(S) {logic onTuple S: {while (true) g($f);}}} => E7 at 101 f
composite M {graph stream<T> S = FileSource(); () as A = Custom(S) {logic onTuple S: {for (int8 i in $f) {}}}} => E7 at 101 f
composite M {graph stream<T> S = FileSource(); () as A = Custom(S) {logic onTuple S: {for (int8 i in l) g($f);}}} => E7 at 106 f
composite M {graph stream<T> S = FileSource(); () as A = Custom(S) {logic onTuple S: {return $f;}}} => E7 at 93 f
composite M {graph stream<T> S = FileSource(); () as A = Custom(S) {logic onTuple S: {submit($f, S);}}} => E7 at 93 f
# the logic before the window
composite M {graph stream<T> S = FileSource(); () as A = Custom(S) {logic onPunct S: {g($f);} window S: count($h); param p: $h;}} => E7 at 88 f
# the window before the parameters
composite M {graph stream<T> S = FileSource(); stream<T> A = Aggregate(S) {window S: tumbling, count($f); param partitionBy: $h;}} => E7 at 101 f
# the parameters before the output
composite M {graph stream<T> S = FileSource(); stream<T> A = Aggregate(S) {param p: 1, $f; output A: a = $h;}} => E7 at 87 f
# the output before config
composite M {graph stream<T> S = FileSource(); stream<T> A = Aggregate(S) {output A: a = $f; config c: $h;}} => E7 at 89 f

# An invocation fits the head of its composite.
invoke: stream<T> A = C(S) {param x: 1l;} => FileSource S() 0; Filter A.O(0) 1 | 0 1 | 1: 0 1; 0@0.1: 1 (1 from 0)
invoke: stream<T> A = C(S) {param y: 2l; x: 1l; config placement: x;} => FileSource S() 0; Filter A.O(0) 1 | 0 1 | 1: 0 1; 0@0.1: 1 (1 from 0)
invoke: stream<T> A = C(S); => E8 at 168 C
invoke: stream<T> A = C(S) {param y: 1l;} => E8 at 168 C
invoke: stream<T> A = C(S) {param x: 1l; z: 1l;} => E8 at 168 C
invoke: stream<T> A = C(S) {param x: 1l; x: 1l;} => E8 at 168 C
invoke: stream<T> A = C(S) {param x: 1l, 2l;} => E8 at 168 C
invoke: () as A = C(S) {param x: 1l;} => E8 at 168 C
invoke: (stream<T> A; stream<T> B) = C(S) {param x: 1l;} => E8 at 168 C
invoke: stream<T> A = C() {param x: 1l;} => E8 at 168 C
invoke: stream<T> A = C(S; S) {param x: 1l;} => E8 at 168 C
invoke: stream<T> A = C(S) {logic onTuple S: {} param x: 1l;} => E8 at 168 C
invoke: stream<T> A = C(S) {window S: tumbling, count(1); param x: 1l;} => E8 at 168 C
invoke: stream<T> A = C(S) {param x: 1l; output A: a = 1;} => E8 at 168 C
composite C(output O) {graph stream<T> P = FileSource();} composite Main {graph stream<T> A = C();} => E8 at 80 C
composite D(output O) {} composite C {graph stream<T> A = D();} composite Main {graph () as X = C();} => E8 at 44 D

# The first refusal counts.
type T = int8; type T = int8; => E3 at 20 T
composite Main {graph () as X = Main();} composite A {graph () as X = Foo(); stream<T> X = FileSource();} => E3 at 87 X
composite A(output B, B) {} composite A {} => E3 at 38 A
type T = int8 a, int8 a; composite A(output B, B) {} => E3 at 47 B
composite A {param expression<int8> $x: 1b; expression<int8> $x: 1b; graph stream<T> B = FileSource(); stream<T> B = FileSource();} => E3 at 113 B
composite A(input I) {graph () as X = A(I);} => E1 at 0
composite Main {graph () as X = Foo(); () as Y = Main();} => E2 at 39 Main
composite Main {graph () as X = Main();} void f() {f();} => E2 at 51 f
composite C {graph () as X = FileSink(S);} composite Main {graph () as A = C(); () as B = Foo();} => E7 at 38 S
composite C {graph () as X = FileSink(S);} composite Main {graph () as B = Foo(); () as A = C();} => E7 at 75 Foo
composite C {} composite Main {graph stream<T> S = FileSource(); () as A = C(S); () as B = FileSink(R);} => E8 at 65 C
composite M {graph stream<T> A = Foo(S) {param p: $x;}} => E7 at 33 Foo
composite M {graph stream<T> A = Filter(S) {param filter: $x;}} => E7 at 40 S
composite C {} composite Main {graph () as A = C(S);} => E7 at 49 S
composite C {} composite Main {graph () as A = C() {param p: $x;}} => E7 at 61 x
composite M {graph stream<T> A = Filter(A); () as X = FileSink(S);} => E7 at 63 S
composite M {graph stream<T> A = Filter(A); () as X = FileSink(S) {param file: "a";} stream<T> S = FileSource() {param file: "a";}} => E4 at 19 A
"#;

pub(crate) const BESIDE: &str = r#"
# No sink has a file of the command line.
composite M {graph stream<T> S = FileSource() {param file: "o";} () as X = FileSink(S) {param file: "p";}} => E5 at 65 p
composite M {graph stream<T> S = FileSource() {param file: "o";} () as X = FileSink(S) {param file: "q";}} => FileSource S() 0; FileSink X(0) | 0 1 | 0: 0
files: () as X = FileSink(I) {param file: 'o';} => E5 at 140 o
files: stream<T> X = FileSource() {param file: 'o';} => FileSource S() 0; FileSource A.X() 1 | 0 1 | 1: 0; 0@0.1: 1 (1 from 0)
"#;
