//! What comes before the texts of rows, in place of `…`, and what comes after.

/// A line a shell, after its word.
pub(crate) const SHELLS: &str = r#"
# The graph of the main composite.
graph: composite Main {graph …}
# Behind a source S.
one: composite Main {graph stream<int32 a, int64 b, rstring s, boolean c> S = FileSource() {param file: 's';} …}
# The same with a function.
called: int32 f(int32 p) {return p;} composite Main {graph stream<int32 a, int64 b, rstring s, boolean c> S = FileSource() {param file: 's';} …}
# Behind two sources L and R.
two: composite Main {graph stream<int32 a, int64 b, rstring s> L = FileSource() {param file: 'l';} stream<boolean c, int64 b, int32 a> R = FileSource() {param file: 'r';} …}
# Behind a stream W with a list, a map and a tuple.
wide: composite Main {graph stream<int32 a, rstring s> S = FileSource() {param file: 's';} stream<int32 a, rstring s, list<int32> l, map<rstring, int32> m, tuple<int32 x> t> W = Functor(S) {output W: l = [a], m = {s : a}, t = {x = a};} …}
# An Aggregate with one attribute, from its window on.
aggregate: composite Main {graph stream<int32 a, int64 b, rstring s, boolean c> S = FileSource() {param file: 's';} stream<int32 a> A = Aggregate(S) {window …}}
# An Aggregate whose partitions are by `a`, and its outputs.
keyed: composite Main {graph stream<int32 a, int64 b, rstring s, boolean c> S = FileSource() {param file: 's';} stream<int32 x> A = Aggregate(S) {window S: tumbling, count(2), partitioned; param partitionBy: a; output A: …}}
# A Custom with one attribute, and its logic.
custom: composite Main {graph stream<int32 a, int64 b, rstring s, boolean c> S = FileSource() {param file: 's';} stream<int32 x> C = Custom(S) {logic …}}
# A Custom that submits the attribute `a` on a tuple, and what it does on a marker.
marker: composite Main {graph stream<int32 a, int64 b, rstring s, boolean c> S = FileSource() {param file: 's';} stream<int32 x> C = Custom(S) {logic state: {int32 k = 1;} onTuple S: {submit({x = a}, C);} onPunct S: {…}}}
# A Custom that passes window markers, and what it does on a tuple.
tuple: int32 f(int32 p) {return p;} composite Main {graph stream<int32 a, int64 b, rstring s, boolean c> S = FileSource() {param file: 's';} stream<int32 x> C = Custom(S) {logic state: {int32 k = 1;} onPunct S: {if (currentPunct() == Sys.WindowMarker) submit(Sys.WindowMarker, C);} onTuple S: {…}}}
# A Custom with the attributes of its input, and what it does on a tuple.
whole: composite Main {graph stream<int32 a, int64 b, rstring s, boolean c> S = FileSource() {param file: 's';} stream<S> C = Custom(S) {logic onTuple S: {…}}}
# A Custom with a price, and its logic.
price: composite Main {graph stream<int64 price> T = FileSource() {param file: 't.csv'; format: csv;} stream<int64 n> C = Custom(T) {logic …}}
"#;
