//! What comes before the texts of rows, in place of `…`, and what comes after.

/// A line a shell, after its word.
pub(crate) const SHELLS: &str = r#"
# The graph of the main composite.
graph: composite Main {graph …}
# Behind a source S.
one: composite Main {graph stream<int32 a, int64 b, rstring s, boolean c> S = FileSource() {param file: 's';} …}
# Behind two sources L and R.
two: composite Main {graph stream<int32 a, int64 b, rstring s> L = FileSource() {param file: 'l';} stream<int32 a, int64 d, boolean c> R = FileSource() {param file: 'r';} …}
# Behind a stream W with a list, a map and a tuple.
wide: composite Main {graph stream<int32 a, rstring s> S = FileSource() {param file: 's';} stream<int32 a, rstring s, list<int32> l, map<rstring, int32> m, tuple<int32 x> t> W = Functor(S) {output W: l = [a], m = {s : a}, t = {x = a};} …}
# From the windows of an Aggregate on.
window: composite Main {graph stream<int32 a, int64 b, rstring s, boolean c> S = FileSource() {param file: 's';} stream<int32 a> A = Aggregate(S) {window …}}
# From the windows of a Join on.
windows: composite Main {graph stream<int32 a, int64 b, rstring s> L = FileSource() {param file: 'l';} stream<int32 a, int64 d, boolean c> R = FileSource() {param file: 'r';} stream<int64 b, int64 d> J = Join(L; R) {window …}}
# The outputs of an Aggregate.
collected: composite Main {graph stream<int32 a, int64 b, rstring s, boolean c> S = FileSource() {param file: 's';} stream<int32 a, int64 b, int32 n> A = Aggregate(S) {window S: tumbling, count(2); output …}}
# The logic of a Custom.
logic: composite Main {graph stream<int32 a, int64 b, rstring s, boolean c> S = FileSource() {param file: 's';} stream<int32 n> C = Custom(S) {logic …}}
# What a Custom does on a tuple.
tuple: composite Main {graph stream<int32 a, int64 b, rstring s, boolean c> S = FileSource() {param file: 's';} stream<int32 n> C = Custom(S) {logic state: {int32 k = 1; mutable int32 v = 0;} onTuple S: {…}}}
# What a Custom does on a marker.
marker: composite Main {graph stream<int32 a, int64 b, rstring s, boolean c> S = FileSource() {param file: 's';} stream<int32 n> C = Custom(S) {logic state: {int32 k = 1; mutable int32 v = 0;} onPunct S: {…}}}
# The body of a function with a result.
function: int32 f(int32 p, list<int32> l) {…} composite Main {}
# The body of a function without one.
void: void f(int32 p, list<int32> l) {…} composite Main {}
# The value of a parameter of type `int32` in a filter.
argument: composite C(output O; input I) {param expression<int32> $n; graph stream<I> O = Filter(I) {param filter: a > $n;}} composite Main {graph stream<int32 a> S = FileSource() {param file: 's';} stream<S> A = C(S) {param n: …;}}
# The parameters of the main composite, and a filter with one of them.
parameter: composite Main {param … graph stream<int32 a> S = FileSource() {param file: 's';} stream<S> F = Filter(S) {param filter: a > $n;}}
"#;
