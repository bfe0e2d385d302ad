//! Programs that are refused: the code, the place and the name that are told.

/// By `check` and by `run`.
pub(crate) const REFUSALS: &str = r#"
# The first program writes to no file that is read.
# the file of a source
composite Main {␊  graph␊    stream<int64 price> T = FileSource() { param file: "t.csv"; format: csv; }␊    stream<int64 price> B = Filter(T) { param filter: price > 10l; }␊    () as Out = FileSink(B) { param file: "t.csv"; format: csv; }␊}␊ => 2 refused E5 at 177 t.csv␊
# the program's own file
composite Main {␊  graph␊    stream<int64 price> T = FileSource() { param file: "t.csv"; format: csv; }␊    stream<int64 price> B = Filter(T) { param filter: price > 10l; }␊    () as Out = FileSink(B) { param file: "p.spl"; format: csv; }␊}␊ => 2 refused E5 at 177 p.spl␊

# What reaches itself is refused.
# a composite that invokes itself through another
composite Main { graph () as X = A(); } composite A { graph () as Y = Main(); } => 2 refused E2 at 23 Main␊
# a composite behind those that don't invoke themselves
composite Main {graph () as X = A();} composite A {graph () as Y = B();} composite B {graph () as Z = B();} => 2 refused E2 at 92 B␊
# a function that calls itself
int64 f(int64 n) {return n > 0l ? f(n - 1l) : 0l;} composite Main {} => 2 refused E2 at 34 f␊
# two functions that call each other
boolean isEven(int64 n) {return n == 0l || isOdd(n - 1l);} boolean isOdd(int64 n) {return n != 0l && isEven(n - 1l);} composite Main {} => 2 refused E2 at 43 isEven␊

# A name is declared once.
# a composite and a function
composite Main {} void Main() {} => 2 refused E3 at 23 Main␊
# a function that is named as a built-in call
int64 abs(int64 n) {return n;} composite Main {} => 2 refused E3 at 6 abs␊
# two streams
composite Main {graph stream<int64 n> T = FileSource() {param file: "t.csv";} stream<int64 n> T = Filter(T);} => 2 refused E3 at 94 T␊
# a stream and an alias of an operator
composite Main {graph stream<int64 n> T = FileSource() {param file: "t.csv";} () as T = FileSink(T) {param file: "o.csv";}} => 2 refused E3 at 84 T␊
# an output and an input of a head
composite C(output O; input O) {} composite Main {} => 2 refused E3 at 28 O␊
# two types of a composite
composite Main {type Row = int64 n; Row = int64 m;} => 2 refused E3 at 36 Row␊
# two parameters of a composite
composite Main {param expression<int64> $least : 1l; expression<int64> $least : 2l;} => 2 refused E3 at 71 least␊
# two attributes
type Row = int64 n, rstring n; composite Main {} => 2 refused E3 at 28 n␊
# two parameters of a function
void f(int64 n, int64 n) {} composite Main {} => 2 refused E3 at 22 n␊
# two variables of a block
void f() {int64 n = 1l; int64 n = 2l;} composite Main {} => 2 refused E3 at 30 n␊
# two variables of a state
composite Main {graph stream<int64 n> T = FileSource() {param file: "t.csv";} () as C = Custom(T) {logic state: {int64 k; boolean k;}}} => 2 refused E3 at 130 k␊

# An operator that waits for itself is refused.
# an operator that reads its own stream
composite Main {graph stream<int64 n> T = FileSource() {param file: "t.csv";} stream<int64 n> A = Filter(A);} => 2 refused E4 at 78 A␊
# a sink behind a circle
composite Main {graph () as Out = FileSink(A) {param file: "o.csv";} stream<int64 n> A = Filter(A);} => 2 refused E4 at 22 Out␊
# an operator of a composite
composite C(output O; input I) {graph stream<int64 n> O = Filter(I);} composite Main {graph stream<int64 n> A = C(A);} => 2 refused E4 at 38 A.O␊

# A sink has a file of its own.
# the file of a source
composite Main {graph stream<int64 n> T = FileSource() {param file: "t.csv";} () as Out = FileSink(T) {param file: "t.csv";}} => 2 refused E5 at 78 t.csv␊
# the file of a source behind the sink
composite Main {graph () as Out = FileSink(T) {param file: "t.csv";} stream<int64 n> T = FileSource() {param file: "t.csv";} } => 2 refused E5 at 69 t.csv␊
# the file of another sink
composite Main {graph stream<int64 n> T = FileSource() {param file: "t.csv";} () as X = FileSink(T) {param file: "o.csv";} () as Y = FileSink(T) {param file: "o.csv";}} => 2 refused E5 at 123 o.csv␊
# the file of the program
composite Main {graph stream<int64 n> T = FileSource() {param file: "t.csv";} () as Out = FileSink(T) {param file: "p.spl";}} => 2 refused E5 at 78 p.spl␊
# the file of a composite's sink, which is invoked twice
composite Save(input I) {param expression<rstring> $to : "o.csv"; graph () as Out = FileSink(I) {param file: $to;}} composite Main {graph stream<int64 n> T = FileSource() {param file: "t.csv";} () as A = Save(T); () as B = Save(T);} => 2 refused E5 at 72 o.csv␊
# a file that an argument names
composite Save(input I) {param expression<rstring> $to : "o.csv"; graph () as Out = FileSink(I) {param file: $to;}} composite Main {graph stream<int64 n> T = FileSource() {param file: "t.csv";} () as A = Save(T) {param to: "t.csv";}} => 2 refused E5 at 72 t.csv␊

# A name in a graph is declared.
# an operator
composite Main {graph stream<int64 n> T = Source() {param file: "t.csv";}} => 2 refused E7 at 42 Source␊
# a stream
composite Main {graph stream<int64 n> T = FileSource() {param file: "t.csv";} () as Out = FileSink(B) {param file: "o.csv";}} => 2 refused E7 at 99 B␊
# a stream of a composite
composite C(output O) {graph stream<int64 n> T = FileSource() {param file: "t.csv";} stream<int64 n> O = Filter(T);} composite Main {graph stream<int64 n> A = C(); () as Out = FileSink(T) {param file: "o.csv";}} => 2 refused E7 at 185 T␊
# a parameter of a composite
composite Main {graph stream<int64 n> T = FileSource() {param file: "t.csv";} stream<int64 n> B = Filter(T) {param filter: n > $least;}} => 2 refused E7 at 127 least␊

# A composite is invoked as its head says.
# another number of inputs
composite C(output O; input I) {graph stream<I> O = Filter(I);} composite Main {graph stream<int64 n> T = FileSource() {param file: "t.csv";} stream<int64 n> A = C(T; T);} => 2 refused E8 at 142 C␊
# no output
composite C(output O; input I) {graph stream<I> O = Filter(I);} composite Main {graph stream<int64 n> T = FileSource() {param file: "t.csv";} () as A = C(T);} => 2 refused E8 at 142 C␊
# an output that no stream makes
composite C(output O) {graph stream<int64 n> T = FileSource() {param file: "t.csv";} } composite Main {graph stream<int64 n> A = C();} => 2 refused E8 at 109 C␊
# a parameter without a value
composite C(output O; input I) {param expression<int64> $least; graph stream<I> O = Filter(I) {param filter: n > $least;}} composite Main {graph stream<int64 n> T = FileSource() {param file: "t.csv";} stream<int64 n> A = C(T);} => 2 refused E8 at 201 C␊
# a parameter that the composite doesn't have
composite C(output O; input I) {graph stream<I> O = Filter(I);} composite Main {graph stream<int64 n> T = FileSource() {param file: "t.csv";} stream<int64 n> A = C(T) {param most: 1l;}} => 2 refused E8 at 142 C␊
# a window
composite C(output O; input I) {graph stream<I> O = Filter(I);} composite Main {graph stream<int64 n> T = FileSource() {param file: "t.csv";} stream<int64 n> A = C(T) {window T: tumbling, count(1);}} => 2 refused E8 at 142 C␊

# A name in a program has a meaning.
# the type of a parameter
void f(foo n) {} composite Main {} => 2 refused Y1 at 7 foo␊
# a type that leads back to itself
type A = list<A>; composite Main {graph stream<A l> T = FileSource() {param file: "t.csv";}} => 2 refused Y1 at 47 A␊
# a variable behind its block
int64 f(int64 n) {if (n > 0l) {int64 m = n;} return m;} composite Main {} => 2 refused Y1 at 52 m␊
# a parameter of a composite in a function
int64 f() {return $n;} composite Main {param expression<int64> $n : 1l;} => 2 refused Y1 at 18 n␊

# A name in a clause has a meaning.
# a function
@source stream<int64 price> B = Filter(T) {param filter: isLarge(price);} => 2 refused Y1 at 131 isLarge␊
# an attribute
@source stream<int64 price> B = Filter(T) {param filter: cost > 10l;} => 2 refused Y1 at 131 cost␊
# an attribute of the port
@source stream<int64 price> B = Filter(T) {param filter: T.cost > 10l;} => 2 refused Y1 at 133 cost␊
# a port
@source stream<int64 price> B = Filter(T) {param filter: B.price > 10l;} => 2 refused Y1 at 131 B␊
# the port of a window
@source stream<int64 price> A = Aggregate(T) {window A: tumbling, count(2);} => 2 refused Y1 at 127 A␊
# the stream of an output
@source stream<int64 cost> F = Functor(T) {output T: cost = price;} => 2 refused Y1 at 124 T␊
# the port of a handler
@source stream<int64 price> C = Custom(T) {logic onTuple C: {}} => 2 refused Y1 at 131 C␊
# the stream of a submit
@source stream<int64 price> C = Custom(T) {logic onTuple T: {submit(T, B);}} => 2 refused Y1 at 145 B␊
# an attribute that both ports have
@source stream<int64 cost> J = Join(T; T as U) {window T: sliding, count(1); U: sliding, count(1); output J: cost = price;} => 2 refused Y1 at 190 price␊

# A clause has the type that is wanted.
# an int32 beside an int64
@source stream<int64 price> B = Filter(T) {param filter: price > 10;} => 2 refused Y2 at 139␊
# a number as a condition
@source stream<int64 price> B = Filter(T) {param filter: price;} => 2 refused Y2 at 131␊
# an empty name of a file
@source () as Out = FileSink(T) {param file: "";} => 2 refused Y2 at 119␊
# another format
@source () as Out = FileSink(T) {param file: "o.csv"; format: tsv;} => 2 refused Y2 at 136␊
# a Filter that gives another type
@source stream<int32 price> B = Filter(T); => 2 refused Y2 at 89␊
# two types at one port
@source stream<int64 n> U = FileSource() {param file: "u.csv";} () as Out = FileSink(T, U) {param file: "o.csv";} => 2 refused Y2 at 162␊
# a stream of numbers
@source stream<int64> U = FileSource() {param file: "u.csv";} => 2 refused Y2 at 89␊

# A composite has the types that are wanted.
# an argument of a composite
composite C(output O; input I) {param expression<int64> $least; graph stream<I> O = Filter(I) {param filter: n > $least;}} composite Main {graph stream<int64 n> T = FileSource() {param file: "t.csv";} stream<int64 n> A = C(T) {param least: 1;}} => 2 refused Y2 at 240␊
# the type of an output of a head
composite C(output stream<int32 n> O; input I) {graph stream<I> O = Filter(I);} composite Main {graph stream<int64 n> T = FileSource() {param file: "t.csv";} stream<int64 n> A = C(T);} => 2 refused Y2 at 26␊

# What is changed is mutable.
# a variable
void f() {int64 n = 1l; n = 2l;} composite Main {} => 2 refused Y3 at 24␊
# a parameter
int64 f(int64 n) {n += 1l; return n;} composite Main {} => 2 refused Y3 at 18␊
# the variable of a loop
void f(list<int64> l) {for (int64 n in l) {n = 0l;}} composite Main {} => 2 refused Y3 at 43␊
# a list that is a parameter
void f(list<int64> l) {appendM(l, 1l);} composite Main {} => 2 refused Y3 at 31␊
# an attribute
composite Main {graph stream<int64 n> T = FileSource() {param file: "t.csv";} () as C = Custom(T) {logic onTuple T: {n = 1l;}}} => 2 refused Y3 at 117␊

# Calls and jumps stand where they may.
# too many arguments
int32 f() {return length("a", "b");} composite Main {} => 2 refused Y4 at 18␊
# too few arguments of a function
int64 f(int64 n) {return n;} int64 g() {return f();} composite Main {} => 2 refused Y4 at 47␊
# break outside of a loop
void f() {break;} composite Main {} => 2 refused Y4 at 10␊
# continue outside of a loop
void f() {while (true) {} continue;} composite Main {} => 2 refused Y4 at 26␊
# submit in a function
void f() {submit({n = 1l}, T);} composite Main {graph stream<int64 n> T = FileSource() {param file: "t.csv";} } => 2 refused Y4 at 10␊
# a value from a function without a result
void f() {return 1l;} composite Main {} => 2 refused Y4 at 10␊
# no value from a function with a result
int64 f() {return;} composite Main {} => 2 refused Y4 at 11␊
# the marker in a condition
composite Main {graph stream<int64 n> T = FileSource() {param file: "t.csv";} stream<int64 n> B = Filter(T) {param filter: currentPunct() == Sys.WindowMarker;}} => 2 refused Y4 at 123␊

# What is left out is refused.
# the type of a variable
void f() {timestamp t;} composite Main {} => 2 refused Y5 at 10 timestamp␊
# an entry of a config
composite Main {graph stream<int64 n> T = FileSource() {param file: "t.csv";} stream<int64 n> B = Filter(T) {config threads: 4;}} => 2 refused Y5 at 116 threads␊
# logic of a Filter
composite Main {graph stream<int64 n> T = FileSource() {param file: "t.csv";} stream<int64 n> B = Filter(T) {logic onTuple T: {}}} => 2 refused Y5 at 109 logic␊
# a state that isn't constant
composite Main {graph stream<int64 n> T = FileSource() {param file: "t.csv";} () as C = Custom(T) {logic state: int64 k = 1l + 1l;}} => 2 refused Y5 at 122 state␊

# A function with a result ends with one.
# one branch alone
int64 f(int64 n) {if (n > 0l) return n;} composite Main {} => 2 refused Y6 at 6 f␊
# a loop at the end
boolean isLarge(int64 n) {while (true) {return n > 10l;}} composite Main {} => 2 refused Y6 at 8 isLarge␊

# A parameter that is needed is there.
# the file of a sink
@source () as Out = FileSink(T); => 2 refused C1 at 82 file␊
# the condition of a Punctor
@source stream<int64 price> P = Punctor(T) {param position: after;} => 2 refused C1 at 82 punctuation␊
# the position of a Punctor
@source stream<int64 price> P = Punctor(T) {param punctuation: price > 0l;} => 2 refused C1 at 82 position␊
# the index of a Split
@source (stream<int64 price> L; stream<int64 price> R) = Split(T); => 2 refused C1 at 82 index␊
# the keys of a partitioned window
@source stream<int64 price> A = Aggregate(T) {window T: tumbling, count(2), partitioned;} => 2 refused C1 at 82 partitionBy␊

# An operator has its own clauses once.
# a parameter
@source stream<int64 price> U = FileSource() {param file: "u.csv"; separator: ",";} => 2 refused C2 at 141 separator␊
# a parameter given twice
@source stream<int64 price> B = Filter(T) {param filter: price > 0l; filter: price < 9l;} => 2 refused C2 at 143 filter␊
# keys of a window that isn't partitioned
@source stream<int64 price> A = Aggregate(T) {window T: tumbling, count(2); param partitionBy: price;} => 2 refused C2 at 156 partitionBy␊
# a window of a Filter
@source stream<int64 price> B = Filter(T) {window T: tumbling, count(2);} => 2 refused C2 at 117 window␊
# a window given twice
@source stream<int64 price> A = Aggregate(T) {window T: tumbling, count(2); T: tumbling, count(3);} => 2 refused C2 at 150 window␊
# outputs of a Filter
@source stream<int64 price> B = Filter(T) {output B: price = 1l;} => 2 refused C2 at 117 output␊
# a handler of tuples given twice
@source () as C = Custom(T) {logic onTuple T: {} onTuple T: {}} => 2 refused C2 at 123 onTuple␊
# a handler of markers given twice
@source () as C = Custom(T) {logic onPunct T: {} onTuple T: {} onPunct T: {}} => 2 refused C2 at 137 onPunct␊

# A window is one of those that there are.
# none
@source stream<int64 price> A = Aggregate(T); => 2 refused C3 at 82␊
# a count of 0
@source stream<int64 price> A = Aggregate(T) {window T: tumbling, count(0);} => 2 refused C3 at 146␊
# a time
@source stream<int64 price> A = Aggregate(T) {window T: tumbling, time(5);} => 2 refused C3 at 140␊
# a kind alone
@source stream<int64 price> A = Aggregate(T) {window T: sliding;} => 2 refused C3 at 127␊
# a tumbling window of a Join
@source stream<int64 price> J = Join(T; T as U) {window T: tumbling, count(1); U: sliding, count(1); output J: price = U.price;} => 2 refused C3 at 133␊

# An output attribute has one value.
# an attribute without a value
@source stream<int64 price, int64 cost> F = Functor(T); => 2 refused C4 at 82␊
# an attribute of another type in the input
@source stream<int32 price> F = Functor(T); => 2 refused C4 at 82␊
# an unknown attribute
@source stream<int64 price> F = Functor(T) {output F: cost = 1l;} => 2 refused C4 at 128␊
# an attribute assigned twice
@source stream<int64 price> F = Functor(T) {output F: price = 1l, price = 2l;} => 2 refused C4 at 140␊
# an attribute that an input of a Union doesn't have
@source stream<int64 cost> U = FileSource() {param file: "u.csv";} stream<int64 price> V = Union(T; U); => 2 refused C4 at 141␊

# An operator has its number of ports.
# a source with an input
@source stream<int64 price> U = FileSource(T) {param file: "u.csv";} => 2 refused C5 at 82␊
# a sink with an output
@source stream<int64 price> O = FileSink(T) {param file: "o.csv";} => 2 refused C5 at 82␊
# a Filter with two inputs
@source stream<int64 price> B = Filter(T; T); => 2 refused C5 at 82␊
# a Custom without inputs
@source () as C = Custom(); => 2 refused C5 at 82␊
# a Join with one input
@source stream<int64 price> J = Join(T) {window T: sliding, count(1);} => 2 refused C5 at 82␊

# A file has a row for each tuple.
# a list of a source
@source stream<list<int64> l> U = FileSource() {param file: "u.csv";} => 2 refused C6 at 82␊
# a map of a sink
@source stream<map<int64, int64> m> F = Functor(T) {output F: m = {price : 1l};} () as Out = FileSink(F) {param file: "o.csv";} => 2 refused C6 at 155␊
# a tuple of a sink
@source stream<tuple<int64 price> t> F = Functor(T) {output F: t = T;} () as Out = FileSink(F) {param file: "o.csv";} => 2 refused C6 at 145␊
"#;

/// What is answered to `check`, also to programs that are accepted.
pub(crate) const CHECKS: &str = r#"
# Small programs.
# a composite without a graph
composite A { } => 0 ok 0 operators 0 streams␊
# an empty file
∅ => 2 refused E1 at 0␊
# a byte that begins no token
@text # => 2 refused L1 at 0␊
# a text that isn't closed
"ab => 2 refused L2 at 0␊
# a comment that isn't closed
/* => 2 refused L3 at 0␊
# a number beyond its type
300b => 2 refused L4 at 0␊
# a composite without a name
composite => 2 refused S1 at 9␊
# a composite that invokes itself
composite A { graph () as X = A(); } => 2 refused E2 at 20 A␊
# a type declared twice
type T = int32; type T = int32; => 2 refused E3 at 21 T␊
# operators in a circle
composite M { graph stream<int32 a> A = Filter(B) { } stream<int32 a> B = Filter(A) { } } => 2 refused E4 at 20 A␊
# an unknown type
composite M { graph stream<foo p> T = FileSource(); } => 2 refused Y1 at 27 foo␊
# a type that is left out
composite M { graph stream<float64 p> T = FileSource(); } => 2 refused Y5 at 27 float64␊
# a number as a file
composite M { graph stream<int64 p> T = FileSource() { param file: 5; format: csv; } } => 2 refused Y2 at 67␊
# a source without a file
composite M { graph stream<int64 p> T = FileSource(); } => 2 refused C1 at 20 file␊
# a symbol in a composite
composite A { ; } => 2 refused S1 at 14␊
# a sum without its right side
composite A { graph stream<int64 p> T = Filter(B) { param filter: a + ; } } => 2 refused S1 at 70␊

# Larger programs.
# a source, a filter and a sink
@first => 0 ok 3 operators 2 streams␊
# trades by symbol
@sums => 0 ok 9 operators 7 streams␊

# A mistake in a program is told with its place.
# an int32 beside an int64
@sums price > 0l; → price > 0; => 2 refused Y2 at 256␊
# an argument that the composite doesn't have
@sums param least: 10l; → param most: 10l; => 2 refused E8 at 394 Clean␊
# an argument of another type
@sums param least: 100l; → param least: 100; => 2 refused Y2 at 493␊
# a file that two sinks have
@sums file: "hi.csv" → file: "lo.csv" => 2 refused E5 at 973 lo.csv␊
# an unknown stream
@sums FileSink(C2) → FileSink(C3) => 2 refused E7 at 1067 C3␊
# an unknown type of a stream
@sums stream<Trade> C2 → stream<Trades> C2 => 2 refused Y1 at 456 Trades␊
# an attribute that isn't there
@sums value = price * qty → value = price * quantity => 2 refused Y1 at 582 quantity␊
# an output attribute that isn't there
@sums output V: value → output V: values => 2 refused C4 at 566␊
# a sum of texts
@sums Sum(value) → Sum(sym) => 2 refused Y2 at 786␊
# keys that are missing
@sums param partitionBy: sym; → ∅ => 2 refused C1 at 593 partitionBy␊
# a window that isn't partitioned
@sums count(1), partitioned; → count(1); => 2 refused C2 at 711 partitionBy␊
# a window without a trigger
@sums count(2), count(1), partitioned; → count(2), partitioned; => 2 refused C3 at 667␊
# branches of two types
@sums ? 1 : 0; → ? 1 : 0l; => 2 refused Y2 at 894␊
# an index that is a text
@sums index: total >= 10000l ? 1 : 0; → index: sym; => 2 refused Y2 at 872␊
# a bracket that is missing
@sums price > 0l; // both → price > (0l; // both => 2 refused S1 at 259␊
# a comment that isn't closed
@sums // both must hold → /* both must hold => 2 refused L3 at 260␊

# A token that nests too deep: a name in so many parentheses.
@nested 194 => 0 ok 3 operators 2 streams␊
@nested 195 => 2 refused S2 at 352␊
@nested 300 => 2 refused S2 at 352␊

# What is too deep comes before what is unexpected: so many parentheses alone.
@parentheses 200 => 2 refused S1 at 0␊
@parentheses 201 => 2 refused S2 at 200␊

# A graph has 256 operators at most: so many sources.
@sources 256 => 0 ok 256 operators 256 streams␊
@sources 257 => 2 refused E6 at 15382␊
@sources 300 => 2 refused E6 at 15382␊

# A program is a mebibyte at most: one with blanks behind it, which is looked at before its tokens.
@padded 1048576 @first => 0 ok 3 operators 2 streams␊
@padded 1048577 @first => 2 refused L5 at 1048576␊
@padded 1048576 # => 2 refused L1 at 0␊
@padded 1048577 # => 2 refused L5 at 1048576␊
"#;
