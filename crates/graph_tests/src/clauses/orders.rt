//! Programs with two faults: the first one in the order of the checks is answered.

pub(crate) const ROWS: &str = r#"
# Functions come before operators and each in its order.
# a function behind an operator
composite Main {graph stream<foo a> S = FileSource();} void f() {x = 1;} => Y1 at 65 x
# two functions
void f() {x = 1;} void g() {y = 1;} composite Main {} => Y1 at 10 x
# two operators
composite Main {graph stream<int32 a> F = Filter(S) {param filter: 5;} stream<int32 a> S = FileSource();} => Y2 at 67
# an operator of a composite behind another
composite C(output O) {graph stream<int32 a> O = FileSource();} composite Main {graph stream<int32 a> S = FileSource(); stream<int32 a> A = C();} => C1 at 86 file
# an operator of a composite before another
composite C(output O) {graph stream<int32 a> O = FileSource();} composite Main {graph stream<int32 a> A = C(); stream<int32 a> S = FileSource() {param file: 5;}} => C1 at 29 file
# a composite that is invoked twice
composite C(output O; input I) {param expression<int32> $n; graph stream<I> O = Filter(I) {param filter: a > $n;}} composite Main {graph stream<int32 a> S = FileSource() {param file: 's';} stream<S> A = C(S) {param n: 'x';} stream<S> B = C(S) {param n: true;}} => Y2 at 218
# a composite that isn't invoked
composite C(output O) {graph stream<foo a> O = FileSource();} composite Main {graph stream<int32 a> S = FileSource();} => C1 at 84 file

# A function is looked at from its head to its end.
# the result before the parameters
foo f(bar a) {} composite Main {} => Y1 at 0 foo
# two parameters
void f(float32 a, foo b) {} composite Main {} => Y5 at 7 float32
# a parameter before the body
int32 f(float32 a) {x = 1;} composite Main {} => Y5 at 8 float32
# two statements
void f() {int32 x = 'x'; y = 1;} composite Main {} => Y2 at 20
# the body before its ending
int32 f() {x = 1;} composite Main {} => Y1 at 11 x
# the ending before the next function
int32 f() {} void g() {x = 1;} composite Main {} => Y6 at 6 f
# a later function's parameter before what is behind the call
void f() {g(1); x = 1;} void g(float32 a) {} composite Main {} => Y5 at 31 float32
# what is before the call of a later function
void f() {x = 1; g(1);} void g(float32 a) {} composite Main {} => Y1 at 10 x
# a later function's body behind a statement
void f() {g(); x = 1;} void g() {y = 1;} composite Main {} => Y1 at 15 x
# a later function's parameter before an argument
void f() {g(x);} void g(float32 a) {} composite Main {} => Y5 at 24 float32
# a number of arguments before the arguments
void f() {g(x, y);} void g(int32 a) {} composite Main {} => Y4 at 10
# two arguments
void f() {g(x, y);} void g(int32 a, int32 b) {} composite Main {} => Y1 at 12 x
# both sides of an operator
int32 f() {return x + y;} composite Main {} => Y1 at 18 x
# within an operand before its type
boolean f() {return !(1 + x);} composite Main {} => Y1 at 26 x
# a condition before its branches
int32 f(int32 p) {if (p) {x = 1;} return 1;} composite Main {} => Y2 at 22
# a place before its value
void f() {int32 x = 1; x = y;} composite Main {} => Y3 at 23
# a type of a variable before its value
void f() {foo x = y;} composite Main {} => Y1 at 10 foo
# a tuple's attributes before their values
tuple<int32 x> f() {return {y = z};} composite Main {} => Y2 at 27

# Ports come before types and types before clauses.
# the number of ports before the output's type
graph: stream<foo a> F = Filter(); => C5 at 22
# the number of ports before a clause
graph: () as X = Custom() {config x: 1;} => C5 at 22
# two outputs
graph: stream<int32 a> S = FileSource() {param file: 's';} (stream<foo a> A; stream<bar a> B) = Split(S) {param index: 1;} => Y1 at 82 foo
# an output before an input
graph: stream<bar a> F = Filter(S); stream<foo a> S = FileSource() {param file: 's';} => Y1 at 29 bar
# an input before a parameter
graph: stream<int32 a> F = Filter(S) {param filter: 5;} stream<foo a> S = FileSource() {param file: 's';} => Y1 at 78 foo
# a type before a config
graph: stream<foo a> S = FileSource() {param file: 's'; config x: 1;} => Y1 at 29 foo
# streams of a port before a config
graph: stream<int32 a> S = FileSource() {param file: 's';} stream<int64 a> T = FileSource() {param file: 't';} () as O = FileSink(S, T) {param file: 'o'; config x: 1;} => Y2 at 148
# a Filter's type before its condition
graph: stream<int32 a> S = FileSource() {param file: 's';} stream<int64 a> F = Filter(S) {param filter: 5;} => Y2 at 81
# a shape before a missing file
graph: stream<int32> S = FileSource(); => Y2 at 29

# Types of heads come from the inside out.
# the stream's own before the head's
composite C(output stream<foo a> O) {graph stream<bar a> O = FileSource();} composite Main {graph stream<int32 a> A = C();} => Y1 at 50 bar
# the head's before the invocation's
composite C(output stream<int64 a> O) {graph stream<int32 a> O = FileSource() {param file: 's';}} composite Main {graph stream<rstring a> A = C();} => Y2 at 26
# the invocation's before a missing file
composite C(output O) {graph stream<int32 a> O = FileSource();} composite Main {graph stream<rstring a> A = C();} => Y2 at 93
# a head's input before a parameter
composite C(input stream<int64 a> I) {graph () as X = FileSink(I) {param file: 5;}} composite Main {graph stream<int32 a> S = FileSource() {param file: 's';} () as A = C(S);} => Y2 at 25

# Clauses come in this order.
# config before a window
one: stream<int32 a> A = Aggregate(S) {window S: tumbling; config x: 1;} => Y5 at 166 x
# config before an absent window
one: stream<int32 a> A = Aggregate(S) {config x: 1;} => Y5 at 146 x
# config before a parameter
one: stream<S> F = Filter(S) {param filter: 5; config x: 1;} => Y5 at 154 x
# a window before a parameter
one: stream<int32 a> A = Aggregate(S) {window S: tumbling, time(1); param filter: c;} => C3 at 159
# an absent window before a parameter
one: stream<int32 a> A = Aggregate(S) {param filter: c;} => C3 at 105
# a window that isn't wanted before a parameter
one: stream<S> F = Filter(S) {window S: tumbling; param filter: 5;} => C2 at 130 window
# a wrong window before an absent one
one: stream<int32 z> J = Join(S; S as T) {window S: sliding, time(1); output J: z = 1;} => C3 at 161
# two windows
one: stream<int32 z> J = Join(S; S as T) {window T: tumbling; S: time(1); output J: z = 1;} => C3 at 152
# a part before a later one
one: stream<int32 a> A = Aggregate(S) {window S: hopping, time(1);} => C3 at 149
# an unknown port before its window
one: stream<int32 a> A = Aggregate(S) {window T: hopping;} => Y1 at 146 T
# a second window before its parts
one: stream<int32 a> A = Aggregate(S) {window S: tumbling, count(1); S: hopping;} => C2 at 169 window
# an unknown attribute before its limit
one: stream<int32 a> A = Aggregate(S) {window S: tumbling, delta(d, 'x');} => Y1 at 165 d
# a wrong value before an unknown parameter
one: stream<S> F = Filter(S) {param filter: 5; match: c;} => Y2 at 144
# an unknown parameter before a wrong value
one: stream<S> F = Filter(S) {param match: c; filter: 5;} => C2 at 136 match
# a second value before its type
one: stream<S> F = Filter(S) {param filter: c; filter: 5;} => C2 at 147 filter
# an unknown parameter before its value
one: stream<S> F = Filter(S) {param match: x;} => C2 at 136 match
# a value before a further one
one: stream<S> F = Filter(S) {param filter: 5, 6;} => Y2 at 144
# an unknown parameter before an absent one
one: stream<int32 a> T = FileSource() {param path: 't';} => C2 at 145 path
# a wrong value before an absent parameter
one: stream<int32 a> T = FileSource() {param format: tsv;} => Y2 at 153
# two absent parameters
one: stream<S> P = Punctor(S); => C1 at 105 punctuation
# the key that isn't wanted before another key
one: stream<int32 a> A = Aggregate(S) {window S: tumbling, count(1); param partitionBy: d; groupBy: e;} => C2 at 175 partitionBy
# an absent key before an output
one: stream<int32 a> A = Aggregate(S) {window S: tumbling, count(1), partitioned; output A: a = 1;} => C1 at 105 partitionBy
# an absent parameter before an output that isn't wanted
one: stream<S> P = Punctor(S) {param position: after; output P: a = 1;} => C1 at 105 punctuation
# a parameter before an output that isn't wanted
one: stream<S> F = Filter(S) {param filter: 5; output F: a = 1;} => Y2 at 144

# Outputs come before logic and logic before files.
# an unknown attribute before a wrong value
one: stream<S> F = Functor(S) {output F: z = 1, a = 'x';} => C4 at 141
# a wrong value before an unknown attribute
one: stream<S> F = Functor(S) {output F: a = 'x', z = 1;} => Y2 at 145
# a value of an unknown attribute
one: stream<S> F = Functor(S) {output F: z = x;} => Y1 at 145 x
# a second value before that it is one
one: stream<S> F = Functor(S) {output F: a = 1, a = 'x';} => Y2 at 152
# an unknown stream before its values
one: stream<S> F = Functor(S) {output G: z = x;} => Y1 at 138 G
# a wrong value before an attribute without one
one: stream<int32 a, int32 z> F = Functor(S) {output F: a = 'x';} => Y2 at 160
# an attribute without a value before logic
one: stream<int32 z> F = Functor(S) {logic onTuple S: {}} => C4 at 105
# an output that isn't wanted before logic
one: stream<S> F = Filter(S) {logic onTuple S: {} output F: a = 1;} => C2 at 150 output
# an absent parameter before logic
one: () as O = FileSink(S) {logic onTuple S: {}} => C1 at 105 file
# logic before the form of a row
one: stream<list<int32> l> T = FileSource() {logic param file: 't';} => Y5 at 145 logic
# an absent parameter before the form of a row
one: stream<list<int32> l> T = FileSource(); => C1 at 105 file
# a wrong file before the form of a row
one: stream<list<int32> l> T = FileSource() {param file: 5;} => Y2 at 157
# the form of a row before a later operator
one: stream<list<int32> l> T = FileSource() {param file: 't';} stream<T> F = Filter(T) {param filter: 5;} => C6 at 105

# A state comes before handlers and each in its order.
# the state before a handler
logic: state: int32 k = 'x'; onTuple T: {} => Y2 at 159
# two variables
logic: state: {int32 k = 1 + 1; foo m;} => Y5 at 160 state
# a variable's type before its value
logic: state: foo k = 1 + 1; => Y1 at 149 foo
# a value that isn't constant before its type
logic: state: int32 k = 'x' + 'y'; => Y5 at 159 state
# a value that isn't constant before a name in it
logic: state: int32 k = 1 + x; => Y5 at 159 state
# two handlers
logic: onPunct S: {x = 1;} onTuple S: {y = 1;} => Y1 at 154 x
# a handler before an unknown port
logic: onTuple S: {x = 1;} onTuple T: {} => Y1 at 154 x
# an unknown port before its handler
logic: onTuple T: {x = 1;} => Y1 at 150 T
# a second handler before what it does
logic: onTuple S: {} onTuple S: {x = 1;} => C2 at 156 onTuple
# an unknown stream before the tuple
logic: onTuple S: {submit(x, D);} => Y1 at 164 D

# A parameter is looked at where it is first used.
# its type before its default
parameter: expression<foo> $n: x; => Y1 at 33 foo
# its default before its place
parameter: expression<int64> $n: 'x'; => Y2 at 44
# two parameters
parameter: expression<int32> $m: 'x'; expression<int32> $n: 1l; => Y2 at 71
"#;
