//! The logic of Customs, logic of other operators, and streams that no file can hold.

pub(crate) const ROWS: &str = r#"
# A state has constant first values.
logic: state: int32 k = 1; => ok 2 operators 2 streams
logic: state: {mutable list<map<rstring, int32>> k;} => ok 2 operators 2 streams
logic: state: {mutable int32 k = -1; rstring t = 'x'; boolean d = true; list<int32> e = [1, -2]; map<rstring, list<int32>> m = {'k' : [3]}; tuple<int32 x, boolean y> w = {y = false, x = 0}; list<int8> n = []; map<int8, int8> o = {};} => ok 2 operators 2 streams
logic: state: int32 k = 1 + 1; => Y5 at 159 state
logic: state: int32 k = ~1; => Y5 at 159 state
logic: state: boolean k = !true; => Y5 at 161 state
logic: state: int64 k = (int64) 1; => Y5 at 159 state
logic: state: int32 k = true ? 1 : 2; => Y5 at 159 state
logic: state: int32 k = abs(1); => Y5 at 159 state
logic: state: int32 k = [1][0]; => Y5 at 159 state
logic: state: list<int32> k = [1, 1 + 1]; => Y5 at 165 state
logic: state: map<rstring, int32> k = {'x' : a}; => Y5 at 173 state
logic: state: int32 k = a; => Y5 at 159 state
logic: state: {int32 k = 1; int32 m = k;} => Y5 at 173 state
logic: state: {int32 k = 1; int64 m = 1;} => Y2 at 173
logic: state: list<int64> k = [1l, 1]; => Y2 at 170
logic: state: tuple<int32 x, int32 y> k = {x = 1}; => Y2 at 177
logic: state: foo k; => Y1 at 149 foo
logic: state: {int32 k; list<float32> m = [];} => Y5 at 164 float32

# A port has one handler of each event.
logic: onPunct S: {} onTuple S: {} => ok 2 operators 2 streams
logic: onTuple T: {} => Y1 at 150 T
logic: onTuple S: {} onPunct T: {} => Y1 at 164 T
logic: onTuple C: {} => Y1 at 150 C
logic: onTuple S: {} onTuple S: {} => C2 at 156 onTuple
logic: onPunct S: {} onTuple S: {} onPunct S: {} => C2 at 170 onPunct

# A handler sees its own port alone.
# its own one
two: stream<int64 n> C = Custom(L; R) {logic onTuple L: {submit({n = b}, C);} onTuple R: {submit({n = R.d}, C);}} => ok 3 operators 3 streams
# an attribute of the other one
two: stream<int64 n> C = Custom(L; R) {logic onTuple L: {submit({n = d}, C);}} => Y1 at 230 d
# the other one
two: stream<int64 n> C = Custom(L; R) {logic onTuple L: {submit({n = R.d}, C);}} => Y1 at 230 R
# an attribute of both
two: stream<int32 n> C = Custom(L; R) {logic onTuple L: {submit({n = a}, C);}} => ok 3 operators 3 streams
# a port by its stream where it has an alias
two: stream<int32 n> C = Custom(L as P; R) {logic onTuple P: {submit({n = P.a}, C);} onTuple L: {}} => Y1 at 254 L

# Customs alone have logic.
one: stream<int32 a> T = FileSource() {logic state: int32 k = 1; param file: 't';} => Y5 at 139 logic
one: () as O = FileSink(S) {logic onTuple S: {} param file: 'o';} => Y5 at 128 logic
one: stream<S> F = Filter(S) {logic onTuple S: {}} => Y5 at 130 logic
one: stream<S> F = Functor(S) {logic state: int32 k = 1 + 1;} => Y5 at 131 logic
one: stream<S> P = Punctor(S) {logic onTuple S: {} param punctuation: c; position: after;} => Y5 at 131 logic
one: stream<S> A = Split(S) {logic onTuple T: {} param index: a;} => Y5 at 129 logic
one: stream<S> U = Union(S) {logic} => Y5 at 129 logic
one: stream<S> A = Aggregate(S) {logic onTuple S: {} window S: tumbling, count(1);} => Y5 at 133 logic
one: stream<int32 z> J = Join(S; S as T) {logic onTuple S: {x = 1;} window S: sliding, count(1); T: sliding, count(1); output J: z = 1;} => Y5 at 142 logic

# A row of a source has integers booleans and texts.
graph: stream<int8 a, uint8 b, int16 c, uint16 d, int32 e, uint32 f, int64 g, uint64 h, boolean i, rstring j> T = FileSource() {param file: 't';} => ok 1 operators 1 streams
graph: stream<list<int32> l> T = FileSource() {param file: 't';} => C6 at 22
graph: stream<int32 a, map<rstring, int32> m> T = FileSource() {param file: 't'; parsing: permissive;} => C6 at 22
graph: stream<tuple<int32 a> t, int32 b> T = FileSource() {param file: 't';} => C6 at 22

# A row of a sink has them too.
wide: stream<int32 a> F = Functor(W) {output F: a = l[0] + t.x + m['k'];} () as O = FileSink(F) {param file: 'o';} => ok 4 operators 3 streams
wide: () as O = FileSink(W) {param file: 'o';} => C6 at 230
wide: stream<int32 a, list<int32> l> F = Functor(W); () as O = FileSink(F) {param file: 'o';} => C6 at 277
wide: stream<map<rstring, int32> m> F = Functor(W); () as O = FileSink(F) {param file: 'o';} => C6 at 276
wide: stream<tuple<int32 x> t> F = Functor(W); () as O = FileSink(F) {param file: 'o';} => C6 at 271
"#;
