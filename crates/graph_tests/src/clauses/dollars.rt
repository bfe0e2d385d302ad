//! Parameters of composites.

pub(crate) const ROWS: &str = r#"
# An argument has the type of its parameter.
argument: 1 => ok 2 operators 2 streams
argument: -1 + 2 * (int32) 3l % 5 ^ ~4 => ok 2 operators 2 streams
argument: 1l => Y2 at 218
argument: 'x' => Y2 at 218
argument: [1] => Y2 at 218
argument: 1 + 1l => Y2 at 222
argument: a => Y2 at 218
argument: 1 + a => Y2 at 218
argument: abs(1) => Y2 at 218
argument: [1, 2][0] => Y2 at 218
argument: {x = 1}.x => Y2 at 218
argument: (int32) a => Y2 at 218
argument: true ? 1 : a => Y2 at 218
argument: a > 1 ? 1 : 2 => Y2 at 218
argument: true ? 1 : 2 => ok 2 operators 2 streams

# A default has the type of its parameter.
# a number
parameter: expression<int32> $n: 1; => ok 2 operators 2 streams
# another parameter
parameter: expression<int32> $m: 1; expression<int32> $n: $m + 1; => ok 2 operators 2 streams
# a later parameter
parameter: expression<int32> $n: $m; expression<int32> $m: 1; => ok 2 operators 2 streams
# a text
parameter: expression<int32> $n: 'x'; => Y2 at 44
# a name
parameter: expression<int32> $n: a; => Y2 at 44
# another parameter of another type
parameter: expression<int64> $m: 1l; expression<int32> $n: $m; => Y2 at 70
# a default of another parameter
parameter: expression<int32> $m: 1l; expression<int32> $n: $m; => Y2 at 44
# an unknown type
parameter: expression<foo> $n: 1; => Y1 at 33 foo
# a type that is left out
parameter: expression<float64> $n: 1; => Y5 at 33 float64
# parameters that nobody uses
parameter: expression<int32> $m: 'x'; expression<foo> $o: 1; expression<blob> $p: $p; expression<int32> $n: 1; => ok 2 operators 2 streams
# a default that leads to a circle
parameter: expression<int32> $n: 1 + $m; expression<int32> $m: -$m; => Y1 at 48 m

# A parameter stands for its argument.
# in a filter
composite C(output O; input I) {param expression<boolean> $c; graph stream<I> O = Filter(I) {param filter: $c;}} composite Main {graph stream<int32 a> S = FileSource() {param file: 's';} stream<S> A = C(S) {param c: false;} stream<S> B = C(S) {param c: 1 > 0;}} => ok 3 operators 3 streams
# as a file
composite C(input I) {param expression<rstring> $f: 'x'; graph () as X = FileSink(I) {param file: $f;}} composite Main {graph stream<int32 a> S = FileSource() {param file: 's';} () as A = C(S) {param f: 'a';} () as B = C(S);} => ok 3 operators 1 streams
# as the count of a window
composite C(output O; input I) {param expression<int32> $n; expression<int64> $d: 5l; graph stream<I> O = Aggregate(I) {window I: sliding, count($n), count($n);} stream<I> P = Aggregate(I) {window I: tumbling, delta(b, $d);}} composite Main {graph stream<int64 b> S = FileSource() {param file: 's';} stream<S> A = C(S) {param n: 3;}} => ok 3 operators 3 streams
# in an output
composite C(output O; input I) {param expression<list<int32>> $l: []; graph stream<list<int32> l> O = Functor(I) {output O: l = $l;}} composite Main {graph stream<int32 a> S = FileSource() {param file: 's';} stream<list<int32> l> A = C(S); stream<A> B = C(S) {param l: [1, 2];}} => ok 3 operators 3 streams
# in a handler
composite Main {param expression<tuple<int32 n>> $t: {n = 1}; graph stream<int32 a> S = FileSource() {param file: 's';} stream<int32 n> C = Custom(S) {logic onTuple S: {submit($t, C); submit({n = $t.n}, C);}}} => ok 2 operators 2 streams
# from one composite to another
composite D(output O; input I) {param expression<int32> $n; graph stream<I> O = Filter(I) {param filter: a > $n;}} composite C(output O; input I) {param expression<int32> $m; expression<int32> $n: 7; graph stream<I> O = D(I) {param n: $m * $n;}} composite Main {graph stream<int32 a> S = FileSource() {param file: 's';} stream<S> A = C(S) {param m: 2;}} => ok 2 operators 2 streams
# of another type from one composite to another
composite D(output O; input I) {param expression<int32> $n; graph stream<I> O = Filter(I) {param filter: a > $n;}} composite C(output O; input I) {param expression<int64> $m; graph stream<I> O = D(I) {param n: $m;}} composite Main {graph stream<int32 a> S = FileSource() {param file: 's';} stream<S> A = C(S) {param m: 2l;}} => Y2 at 210
# an argument of another type in the outer composite
composite D(output O; input I) {param expression<int32> $n; graph stream<I> O = Filter(I) {param filter: a > $n;}} composite C(output O; input I) {param expression<int32> $m; graph stream<I> O = D(I) {param n: $m;}} composite Main {graph stream<int32 a> S = FileSource() {param file: 's';} stream<S> A = C(S) {param m: 2l;}} => Y2 at 319
# an argument that nobody uses
composite C(output O; input I) {param expression<int32> $n; graph stream<I> O = Filter(I);} composite Main {graph stream<int32 a> S = FileSource() {param file: 's';} stream<S> A = C(S) {param n: 'x' + nothing(y);}} => ok 2 operators 2 streams
# a name in a list as an argument
composite C(output O; input I) {param expression<list<int32>> $p; graph stream<list<int32> l> O = Functor(I) {output O: l = $p;}} composite Main {graph stream<int32 a> S = FileSource() {param file: 's';} stream<list<int32> l> A = C(S) {param p: [1, a];}} => Y2 at 245
# in the key of a map
composite C(output O; input I) {param expression<map<int32, int32>> $p; graph stream<map<int32, int32> l> O = Functor(I) {output O: l = $p;}} composite Main {graph stream<int32 a> S = FileSource() {param file: 's';} stream<map<int32, int32> l> A = C(S) {param p: {a : 1};}} => Y2 at 263
# in its value
composite C(output O; input I) {param expression<map<int32, int32>> $p; graph stream<map<int32, int32> l> O = Functor(I) {output O: l = $p;}} composite Main {graph stream<int32 a> S = FileSource() {param file: 's';} stream<map<int32, int32> l> A = C(S) {param p: {1 : 2, 3 : -a};}} => Y2 at 263
# in a tuple
composite C(output O; input I) {param expression<tuple<int32 x, int32 y>> $p; graph stream<tuple<int32 x, int32 y> l> O = Functor(I) {output O: l = $p;}} composite Main {graph stream<int32 a> S = FileSource() {param file: 's';} stream<tuple<int32 x, int32 y> l> A = C(S) {param p: {x = 1, y = a};}} => Y2 at 281
# in a list of a tuple
composite C(output O; input I) {param expression<tuple<list<int32> x>> $p; graph stream<tuple<list<int32> x> l> O = Functor(I) {output O: l = $p;}} composite Main {graph stream<int32 a> S = FileSource() {param file: 's';} stream<tuple<list<int32> x> l> A = C(S) {param p: {x = [(int32) a]};}} => Y2 at 272
# a default behind an argument
composite C(output O; input I) {param expression<int32> $n: 'x'; graph stream<I> O = Filter(I) {param filter: a > $n;}} composite Main {graph stream<int32 a> S = FileSource() {param file: 's';} stream<S> A = C(S) {param n: 1;}} => ok 2 operators 2 streams
# the second invocation's argument
composite C(output O; input I) {param expression<int32> $n; graph stream<I> O = Filter(I) {param filter: a > $n;}} composite Main {graph stream<int32 a> S = FileSource() {param file: 's';} stream<S> A = C(S) {param n: 1;} stream<S> B = C(S) {param n: 1u;}} => Y2 at 251
# an element of a list as an argument
composite C(output O; input I) {param expression<list<int64>> $l; graph stream<I> O = Filter(I) {param filter: a in $l;}} composite Main {graph stream<int64 a> S = FileSource() {param file: 's';} stream<S> A = C(S) {param l: [1l, 2];}} => Y2 at 230
# another type beside an attribute
composite C(output O; input I) {param expression<int64> $n; graph stream<I> O = Filter(I) {param filter: a > $n;}} composite Main {graph stream<int32 a> S = FileSource() {param file: 's';} stream<S> A = C(S) {param n: 1l;}} => Y2 at 109
# another type as a filter
composite Main {param expression<int32> $n: 1; graph stream<int32 a> S = FileSource() {param file: 's';} stream<S> F = Filter(S) {param filter: $n;}} => Y2 at 144
# another type as a file
composite Main {param expression<int32> $n: 1; graph stream<int32 a> S = FileSource() {param file: $n;}} => Y2 at 99
# another type as an output
composite Main {param expression<int32> $n: 1; graph stream<int32 a> S = FileSource() {param file: 's';} stream<int64 b> F = Functor(S) {output F: b = $n;}} => Y2 at 151
# an empty text as a file
composite Main {param expression<rstring> $f: ''; graph stream<int32 a> S = FileSource() {param file: $f;}} => Y2 at 102
# 0 as a count
composite Main {param expression<int32> $n: 0; graph stream<int32 a> S = FileSource() {param file: 's';} stream<S> A = Aggregate(S) {window S: tumbling, count($n);}} => C3 at 159
# a sum as a count
composite Main {param expression<int32> $n: 1 + 1; graph stream<int32 a> S = FileSource() {param file: 's';} stream<S> A = Aggregate(S) {window S: tumbling, count($n);}} => C3 at 163
# an argument of another type as a count
composite Main {param expression<int32> $n: 5l; graph stream<int32 a> S = FileSource() {param file: 's';} stream<S> A = Aggregate(S) {window S: tumbling, count($n);}} => Y2 at 44
# an argument of another type as a file
composite Main {param expression<rstring> $f: 5; graph stream<int32 a> S = FileSource() {param file: $f;}} => Y2 at 46
# a default that is itself
composite Main {param expression<int32> $n: $n; graph stream<int32 a> S = FileSource() {param file: 's';} stream<S> F = Filter(S) {param filter: a > $n;}} => Y1 at 149 n
# two defaults that are each other
composite Main {param expression<int32> $n: $m; expression<int32> $m: $n + 1; graph stream<int32 a> S = FileSource() {param file: 's';} stream<S> F = Filter(S) {param filter: a > $m;}} => Y1 at 179 m
# an argument named as its parameter
composite D(output O; input I) {param expression<int32> $n; graph stream<I> O = Filter(I) {param filter: a > $n;}} composite C(output O; input I) {param expression<int32> $n; graph stream<I> O = D(I) {param n: $n;}} composite Main {graph stream<int32 a> S = FileSource() {param file: 's';} stream<S> A = C(S) {param n: 1;}} => ok 2 operators 2 streams
"#;
