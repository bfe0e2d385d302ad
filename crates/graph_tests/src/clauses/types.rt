//! What names of types mean, and types that don't fit.

pub(crate) const ROWS: &str = r#"
# A name of a type has a meaning.
# in a list
composite Main {graph stream<list<foo> l> S = FileSource() {param file: 's';}} => Y1 at 34 foo
# as the key of a map
composite Main {graph stream<map<foo, int32> m> S = FileSource() {param file: 's';}} => Y1 at 33 foo
# as the value of a map
composite Main {graph stream<map<int32, foo> m> S = FileSource() {param file: 's';}} => Y1 at 40 foo
# in a tuple
composite Main {graph stream<int32 a, tuple<int32 x, foo y> t> S = FileSource() {param file: 's';}} => Y1 at 53 foo
# as a whole stream
composite Main {graph stream<foo> S = FileSource() {param file: 's';}} => Y1 at 29 foo
# in a type of the program
type T = int32 a, foo b; composite Main {graph stream<T> S = FileSource() {param file: 's';}} => Y1 at 18 foo
# in a type of the composite
composite Main {type T = list<foo>; graph stream<T l> S = FileSource() {param file: 's';}} => Y1 at 30 foo
# of a parameter of a function
void f(int32 a, foo b) {} composite Main {} => Y1 at 16 foo
# of a result
foo f() {return 1;} composite Main {} => Y1 at 0 foo
# of a variable
void f() {list<foo> a;} composite Main {} => Y1 at 15 foo
# of the variable of a loop
void f(list<int32> l) {for (foo i in l) {}} composite Main {} => Y1 at 28 foo
# a type that nobody uses
type T = foo; composite Main {type U = float64; graph stream<int32 a> S = FileSource() {param file: 's';}} => ok 1 operators 1 streams

# Types that are left out are refused.
# as a whole stream
composite Main {graph stream<float32> S = FileSource() {param file: 's';}} => Y5 at 29 float32
# the element of a list
composite Main {graph stream<list<timestamp> l> S = FileSource() {param file: 's';}} => Y5 at 34 timestamp
# the key of a map
composite Main {graph stream<map<ustring, int32> m> S = FileSource() {param file: 's';}} => Y5 at 33 ustring
# the value of a map
composite Main {graph stream<map<int32, blob> m> S = FileSource() {param file: 's';}} => Y5 at 40 blob
# an attribute of a tuple
composite Main {graph stream<tuple<xml x> t> S = FileSource() {param file: 's';}} => Y5 at 35 xml
# a type of the program
type T = decimal128; composite Main {graph stream<int32 a, T b> S = FileSource() {param file: 's';}} => Y5 at 9 decimal128
# a type of the composite
composite Main {type T = complex64 b; graph stream<T> S = FileSource() {param file: 's';}} => Y5 at 25 complex64
# a parameter of a function
void f(int32 a, decimal32 b) {} composite Main {} => Y5 at 16 decimal32
# the result of a function
decimal64 f() {} composite Main {} => Y5 at 0 decimal64
# a variable of a function
void f() {complex32 a;} composite Main {} => Y5 at 10 complex32
# an optional variable
void f() {mutable optional a;} composite Main {} => Y5 at 18 optional
# the variable of a loop
void f(list<int32> l) {for (enum i in l) {}} composite Main {} => Y5 at 28 enum
# a variable of a handler
composite Main {graph stream<int32 a> S = FileSource() {param file: 's';} () as C = Custom(S) {logic onTuple S: {set x;}}} => Y5 at 113 set
# the type of a parameter
composite Main {param expression<float64> $x: 1; graph stream<int32 a> S = FileSource() {param file: 's';} stream<S> F = Filter(S) {param filter: a > $x;}} => Y5 at 33 float64

# A name does not lead back to itself.
# a circle that nobody uses
type A = list<B>; type B = list<A>; composite Main {} => ok 0 operators 0 streams
# a circle of a composite that nobody uses
composite Main {type A = A; graph stream<int32 a> S = FileSource() {param file: 's';}} => ok 1 operators 1 streams
# a type that is itself
type A = A; composite Main {graph stream<A> S = FileSource() {param file: 's';}} => Y1 at 41 A
# a list of itself
type A = list<A>; composite Main {graph stream<int32 a, A b> S = FileSource() {param file: 's';}} => Y1 at 56 A
# two types
type A = int32 a, B b; type B = list<A>; composite Main {graph stream<A> S = FileSource() {param file: 's';}} => Y1 at 70 A
# the second of two types
type A = int32 a, B b; type B = list<A>; composite Main {graph stream<B l> S = FileSource() {param file: 's';}} => Y1 at 70 B
# a way to a circle
type C = list<A>; type A = map<int32, A>; composite Main {graph stream<C c> S = FileSource() {param file: 's';}} => Y1 at 14 A
# types of a composite
composite Main {type A = B; B = tuple<A a>; graph stream<B> S = FileSource() {param file: 's';}} => Y1 at 57 B
# in a function
type A = list<A>; void f(A a) {} composite Main {} => Y1 at 25 A
# a stream of its own type
composite Main {graph stream<A> A = FileSource() {param file: 's';}} => Y1 at 29 A
# two streams of each other's types
composite Main {graph stream<B> A = FileSource() {param file: 's';} stream<A> B = FileSource() {param file: 's';}} => Y1 at 29 B
# a stream of the type of such a stream
composite Main {graph stream<B> A = FileSource() {param file: 's';} stream<B> B = FileSource() {param file: 's';}} => Y1 at 29 B
# a circle of three types, a way to it, and what stands beside it
type A = tuple<E e, B b>; type B = list<C>; type C = list<A>; type D = tuple<E e, A a>; type E = int32; void f(A x) {} composite Main {} => Y1 at 111 A
type A = tuple<E e, B b>; type B = list<C>; type C = list<A>; type D = tuple<E e, A a>; type E = int32; void f(B x) {} composite Main {} => Y1 at 111 B
type A = tuple<E e, B b>; type B = list<C>; type C = list<A>; type D = tuple<E e, A a>; type E = int32; void f(C x) {} composite Main {} => Y1 at 111 C
type A = tuple<E e, B b>; type B = list<C>; type C = list<A>; type D = tuple<E e, A a>; type E = int32; void f(D x) {} composite Main {} => Y1 at 82 A
type A = tuple<E e, B b>; type B = list<C>; type C = list<A>; type D = tuple<E e, A a>; type E = int32; void f(E x) {} composite Main {} => ok 0 operators 0 streams
# a thousand types in a row that is closed, and one that is not
«0 999 type T{n} = T{n+1}; »type T999 = T0; void f(T0 a) {} composite Main {} => Y1 at 17787 T0
«0 999 type T{n} = T{n+1}; »type T999 = T0; void f(T500 a) {} composite Main {} => Y1 at 17787 T500
«0 999 type T{n} = T{n+1}; »type T999 = T0; void f(T999 a) {} composite Main {} => Y1 at 17787 T999
«0 999 type T{n} = T{n+1}; »type T999 = int32; void f(T1 a) {} composite Main {} => ok 0 operators 0 streams

# A name means the nearest type.
# the composite's before the program's
type T = int32 a; composite Main {type T = int64 b; graph stream<T> S = FileSource() {param file: 's';} stream<S> F = Filter(S) {param filter: b > 0l;}} => ok 2 operators 2 streams
# the program's beside the composite's
type T = int32 a; composite Main {type T = int64 b; graph stream<T> S = FileSource() {param file: 's';} stream<S> F = Filter(S) {param filter: a > 0;}} => Y1 at 143 a
# the program's where another composite has one
type T = int32 a; composite A {type T = int64 b;} composite Main {graph stream<T> S = FileSource() {param file: 's';} stream<int32 a> F = Filter(S);} => ok 2 operators 2 streams
# the composite's in a type of the program
type U = T; composite Main {type T = int32 a; graph stream<U> S = FileSource() {param file: 's';}} => Y1 at 9 T
# another composite's
composite A {type T = int32 a;} composite Main {graph stream<T> S = FileSource() {param file: 's';}} => Y1 at 61 T
# a composite's in a function
void f(T a) {} composite Main {type T = int32;} => Y1 at 7 T
# a composite's in a handler
composite Main {type T = int32; graph stream<int32 a> S = FileSource() {param file: 's';} () as C = Custom(S) {logic state: {T k = 1;} onTuple S: {T x = a + k;}}} => ok 2 operators 1 streams
# types in any order
composite Main {type T = list<U>; U = int32; graph stream<T l> S = Functor(R); stream<list<int32> l> R = Functor(Q) {output R: l = [a];} stream<int32 a> Q = FileSource() {param file: 's';}} => ok 3 operators 3 streams
# a type before a stream
composite Main {type T = int32 z; graph stream<int32 a> T = FileSource() {param file: 's';} stream<T> F = Filter(T);} => Y2 at 99

# A name of a stream stands for its type as a whole shape alone.
# a stream
composite Main {graph stream<F> G = Filter(F); stream<S> F = Filter(S); stream<int32 a> S = FileSource() {param file: 's';}} => ok 3 operators 3 streams
# a stream that isn't read there
composite Main {graph stream<int32 a> S = FileSource() {param file: 's';} stream<S> T = FileSource() {param file: 't';}} => ok 2 operators 2 streams
# an input of the head
composite C(output O; input I) {graph stream<I> O = Filter(I);} composite Main {graph stream<int32 a> S = FileSource() {param file: 's';} stream<S> A = C(S); stream<int32 a> B = Filter(A);} => ok 3 operators 3 streams
# an output of a composite
composite C(output O) {graph stream<int32 a> O = FileSource() {param file: 's';}} composite Main {graph stream<A> A = C(); stream<A> B = Filter(A);} => ok 2 operators 2 streams
# an input of two streams
composite C(output O; input I) {graph stream<I> O = Filter(I);} composite Main {graph stream<int32 a> S = FileSource() {param file: 's';} stream<S> T = Filter(S); stream<S> A = C(T, S);} => ok 3 operators 3 streams
# an unknown stream
composite Main {graph stream<int32 a> S = FileSource() {param file: 's';} stream<T> F = Filter(S);} => Y1 at 81 T
# an alias of an operator
composite Main {graph stream<int32 a> S as T = FileSource() {param file: 's';} stream<T> F = Filter(S);} => Y1 at 86 T
# an alias of a port
composite Main {graph stream<int32 a> S = FileSource() {param file: 's';} stream<P> F = Filter(S as P);} => Y1 at 81 P
# a stream of another composite
composite C(output O) {graph stream<int32 a> O = Filter(P); stream<int32 a> P = FileSource() {param file: 's';}} composite Main {graph stream<int32 a> A = C(); stream<P> B = Filter(A);} => Y1 at 167 P
# in a list
composite Main {graph stream<int32 a> S = FileSource() {param file: 's';} stream<list<S> l> F = Functor(S) {output F: l = [];}} => Y1 at 86 S
# as an attribute
composite Main {graph stream<int32 a> S = FileSource() {param file: 's';} stream<S x> F = Functor(S) {output F: x = S;}} => Y1 at 81 S
# in a type
composite Main {type T = S; graph stream<int32 a> S = FileSource() {param file: 's';} stream<T> F = Filter(S);} => Y1 at 25 S
# in a handler
composite Main {graph stream<int32 a> S = FileSource() {param file: 's';} () as C = Custom(S) {logic onTuple S: {S x;}}} => Y1 at 113 S

# The shape of a stream is a tuple.
# a tuple type
composite Main {graph stream<tuple<int32 a>> S = FileSource() {param file: 's';} stream<int32 a> F = Filter(S) {param filter: a > 0;}} => ok 2 operators 2 streams
# a number
composite Main {graph stream<int32> S = FileSource() {param file: 's';}} => Y2 at 29
# a list
composite Main {graph stream<list<int32>> S = FileSource() {param file: 's';}} => Y2 at 29
# a name of a text type
type N = rstring; composite Main {graph stream<N> S = FileSource() {param file: 's';}} => Y2 at 47
# a map of the composite
composite Main {type N = map<int8, int8>; graph stream<int32 a> S = FileSource() {param file: 's';} stream<N> F = Filter(S);} => Y2 at 107

# A type in a head is that of the stream.
# the same types
type T = int32 a; composite C(output stream<T> O; input stream<int32 a> I) {graph stream<I> O = Filter(I);} composite Main {graph stream<T> S = FileSource() {param file: 's';} stream<int32 a> A = C(S);} => ok 2 operators 2 streams
# an output of the head
composite C(output stream<int64 a> O) {graph stream<int32 a> O = FileSource() {param file: 's';}} composite Main {graph stream<int32 a> A = C();} => Y2 at 26
# an output of the invocation
composite C(output O) {graph stream<int32 a> O = FileSource() {param file: 's';}} composite Main {graph stream<int64 a> A = C();} => Y2 at 111
# the second output
composite C(output O, stream<int32 x> P) {graph stream<int32 a> P = FileSource() {param file: 's';} stream<int32 a> O = Filter(P);} composite Main {graph (stream<int32 a> A; stream<int32 a> B) = C();} => Y2 at 29
# an input of the head
composite C(input stream<int64 a> I) {graph () as X = FileSink(I) {param file: 'x';}} composite Main {graph stream<int32 a> S = FileSource() {param file: 's';} () as A = C(S);} => Y2 at 25
# an input that nobody reads
composite C(input stream<int64 a> I) {} composite Main {graph stream<int32 a> S = FileSource() {param file: 's';} () as A = C(S);} => ok 1 operators 1 streams
# an input of a composite around the one that reads it
composite D(input I) {graph () as X = FileSink(I) {param file: 'x';}} composite C(input stream<int64 a> I) {graph () as Y = D(I);} composite Main {graph stream<int32 a> S = FileSource() {param file: 's';} () as A = C(S);} => Y2 at 95
# the inner one comes first
composite D(input stream<int8 a> I) {graph () as X = FileSink(I) {param file: 'x';}} composite C(input stream<int64 a> I) {graph () as Y = D(I);} composite Main {graph stream<int32 a> S = FileSource() {param file: 's';} () as A = C(S);} => Y2 at 25
# the second of two streams
composite D(input I) {graph () as X = FileSink(I) {param file: 'x';}} composite C(input I, stream<int64 a> J) {graph () as Y = D(I, J);} composite Main {graph stream<int32 a> S = FileSource() {param file: 's';} () as A = C(S; S);} => Y2 at 98
# another order
composite C(output stream<int64 b, int32 a> O) {graph stream<int32 a, int64 b> O = FileSource() {param file: 's';}} composite Main {graph stream<int32 a, int64 b> A = C();} => Y2 at 26
# an unknown type in a head
composite C(output stream<foo a> O) {graph stream<int32 a> O = FileSource() {param file: 's';}} composite Main {graph stream<int32 a> A = C();} => Y1 at 26 foo
# a type that is left out in a head
composite C(input stream<float64 a> I) {graph () as X = FileSink(I) {param file: 'x';}} composite Main {graph stream<int32 a> S = FileSource() {param file: 's';} () as A = C(S);} => Y5 at 25 float64
# a composite in another
composite D(output O) {graph stream<int32 a> O = FileSource() {param file: 's';}} composite C(output stream<rstring a> O) {graph stream<O> O = D();} composite Main {graph stream<int32 a> A = C();} => Y2 at 108

# The streams of a port have one type.
# equal types
composite Main {graph stream<int32 a> S = FileSource() {param file: 's';} stream<tuple<int32 a>> T = FileSource() {param file: 't';} stream<S> F = Filter(S, T, S);} => ok 3 operators 3 streams
# the second stream
composite Main {graph stream<int32 a> S = FileSource() {param file: 's';} stream<int64 a> T = FileSource() {param file: 't';} () as O = FileSink(S, T) {param file: 'o';}} => Y2 at 148
# the third stream of the second port
composite Main {graph stream<int32 a> S = FileSource() {param file: 's';} stream<int32 b> T = FileSource() {param file: 't';} stream<int32 a> U = Union(S; S, S, T, T);} => Y2 at 161
# two ports
composite Main {graph stream<int32 a> S = FileSource() {param file: 's';} stream<int32 a, int8 b> T = FileSource() {param file: 't';} stream<int32 a> U = Union(S; T);} => ok 3 operators 3 streams
# an input of a composite
composite C(input I) {graph () as X = FileSink(I) {param file: 'x';}} composite Main {graph stream<int32 a> S = FileSource() {param file: 's';} stream<int64 a> T = FileSource() {param file: 't';} () as A = C(S, T);} => Y2 at 47
# two inputs of a composite
composite C(input I, J) {graph () as X = FileSink(I, J) {param file: 'x';}} composite Main {graph stream<int32 a> S = FileSource() {param file: 's';} stream<int64 a> T = FileSource() {param file: 't';} () as A = C(S; T);} => Y2 at 53
"#;

pub(crate) const BOUNDS: &str = r#"
# A type has at most a thousand types and names inside one another, and a million parts.
type T0 = int32; «0 998 type T{n+1} = T{n} a; »void f(T998 a) {} composite Main {} => ok 0 operators 0 streams
type T0 = int32; «0 999 type T{n+1} = T{n} a; »void f(T999 a) {} composite Main {} => memory
type T0 = int32; «0 1099 type T{n+1} = T{n} a; »void f(T1099 a) {} composite Main {} => memory
type T0 = int32; «0 15 type T{n+1} = T{n} a, T{n} b; »void f(T15 a) {} composite Main {} => ok 0 operators 0 streams
type T0 = int32; «0 40 type T{n+1} = T{n} a, T{n} b; »void f(T40 a) {} composite Main {} => memory
"#;
