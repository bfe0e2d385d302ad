//! Windows of Aggregates and Joins.

pub(crate) const ROWS: &str = r#"
# An aggregate has windows of these forms.
# one tuple
window: S: tumbling, count(1); => ok 2 operators 2 streams
# a million tuples
window: S: tumbling, count(1000000); => ok 2 operators 2 streams
# a count of another type
window: S: tumbling, count(2ul); => ok 2 operators 2 streams
# a difference of 0
window: S: tumbling, delta(b, 0l); => ok 2 operators 2 streams
# the largest difference
window: S: tumbling, delta(a, 2147483647); => ok 2 operators 2 streams
# markers
window: S: tumbling, punct(); => ok 2 operators 2 streams
# one tuple and the largest trigger
window: S: sliding, count(1), count(1000000); => ok 2 operators 2 streams
# a million tuples and the least trigger
window: S: sliding, count(1000000), count(1b); => ok 2 operators 2 streams
# a sliding difference
window: S: sliding, delta(a, 5), count(2); => ok 2 operators 2 streams
# partitioned first
window: S: partitioned, tumbling, count(2); param partitionBy: s; => ok 2 operators 2 streams
# partitioned last
window: S: sliding, count(2), count(1), partitioned; param partitionBy: s, a; => ok 2 operators 2 streams
# partitioned by markers
window: S: tumbling, punct(), partitioned; param partitionBy: c; => ok 2 operators 2 streams
# partitioned by differences
window: S: partitioned, sliding, delta(b, 1l), count(1); param partitionBy: b; => ok 2 operators 2 streams

# A count is a number from one to a million.
window: S: tumbling, count(0); => C3 at 165
window: S: tumbling, count(1000001); => C3 at 165
window: S: tumbling, count(18446744073709551615ul); => C3 at 165
window: S: sliding, count(0), count(1); => C3 at 164
window: S: sliding, count(1000001), count(1); => C3 at 164
window: S: sliding, count(1), count(0); => C3 at 174
window: S: sliding, delta(a, 1), count(1000001); => C3 at 177
window: S: tumbling, count(-1); => C3 at 165
window: S: tumbling, count(1 + 1); => C3 at 165
window: S: tumbling, count(a); => C3 at 165
window: S: tumbling, count('2'); => C3 at 165
window: S: sliding, count(2), count((int64) 1); => C3 at 174

# A window of an aggregate has no other form.
window: S: hopping, count(2); => C3 at 149
window: S: count(2); => C3 at 149
window: S: tumbling; => C3 at 146
window: S: sliding; => C3 at 146
window: S: partitioned; param partitionBy: a; => C3 at 146
window: S: tumbling, partitioned; param partitionBy: a; => C3 at 146
window: S: tumbling, sliding, count(2); => C3 at 159
window: S: count(2), tumbling; => C3 at 149
window: S: tumbling, time(5); => C3 at 159
window: S: tumbling, count(2), count(1); => C3 at 169
window: S: sliding, count(2), count(1), count(1); => C3 at 178
window: S: sliding, count(2); => C3 at 146
window: S: sliding, delta(a, 1); => C3 at 146
window: S: sliding, count(2), partitioned; param partitionBy: a; => C3 at 146
window: S: sliding, count(2), delta(a, 1); => C3 at 168
window: S: sliding, count(2), punct(); => C3 at 168
window: S: sliding, count(2), time(1); => C3 at 168
window: S: sliding, punct(), count(1); => C3 at 158
window: S: tumbling, punct(), count(1); => C3 at 168
window: S: tumbling, partitioned, count(2); param partitionBy: a; => C3 at 159
window: S: sliding, count(2), partitioned, count(1); param partitionBy: a; => C3 at 168
window: S: partitioned, tumbling, count(2), partitioned; param partitionBy: a; => C3 at 182
window: S: tumbling, count(2), partitioned(); param partitionBy: a; => C3 at 169
window: S: partitioned(), tumbling, count(2); param partitionBy: a; => C3 at 149
window: S: tumbling(), count(2); => C3 at 149
window: S: tumbling, count; => C3 at 159
window: S: tumbling, punct; => C3 at 159
window: S: tumbling, count(); => C3 at 159
window: S: tumbling, count(1, 2); => C3 at 159
window: S: tumbling, punct(1); => C3 at 159
window: S: tumbling, delta(a); => C3 at 159
window: S: sliding, count(2), count(1, 1); => C3 at 168

# A difference is of an integer attribute and has a limit of its type.
window: S: tumbling, delta(d, 1); => Y1 at 165 d
window: S: sliding, delta(S2, 1), count(1); => Y1 at 164 S2
window: S: tumbling, delta(s, 1); => C3 at 165
window: S: sliding, delta(c, 1), count(1); => C3 at 164
window: S: tumbling, delta(a, 1l); => C3 at 168
window: S: tumbling, delta(b, 1); => C3 at 168
window: S: sliding, delta(a, 1u), count(1); => C3 at 167
window: S: tumbling, delta(a, -1); => C3 at 168
window: S: tumbling, delta(a, a); => C3 at 168
window: S: tumbling, delta(a, '1'); => C3 at 168
window: S: tumbling, delta(S.a, 1); => C3 at 165
window: S: tumbling, delta(1, 1); => C3 at 165

# Each port of an aggregate has one window.
# no window clause
one: stream<int32 a> A = Aggregate(S); => C3 at 105
# a window clause without windows
one: stream<int32 a> A = Aggregate(S) {window param groupBy: a;} => C3 at 105
# an unknown port
one: stream<int32 a> A = Aggregate(S) {window T: tumbling, count(1);} => Y1 at 146 T
# the output
one: stream<int32 a> A = Aggregate(S) {window A: tumbling, count(1);} => Y1 at 146 A
# an unknown port behind the port
one: stream<int32 a> A = Aggregate(S) {window S: tumbling, count(1); T: tumbling, count(1);} => Y1 at 169 T
# two windows
one: stream<int32 a> A = Aggregate(S) {window S: tumbling, count(1); S: tumbling, count(1);} => C2 at 169 window
# an alias
one: stream<int32 a> A = Aggregate(S as P) {window P: tumbling, count(1);} => ok 2 operators 2 streams
# a stream that has an alias
one: stream<int32 a> A = Aggregate(S as P) {window S: tumbling, count(1);} => Y1 at 151 S
# the second stream of a port
one: stream<S> T = Filter(S); stream<int32 a> A = Aggregate(S, T) {window T: tumbling, count(1);} => Y1 at 174 T

# A join has two sliding windows without triggers.
# no tuple and a million
windows: L: sliding, count(0); R: sliding, count(1000000); => ok 3 operators 3 streams
# differences
windows: R: sliding, delta(d, 1l); L: sliding, delta(a, 0); => ok 3 operators 3 streams
# one too many
windows: L: sliding, count(1000001); R: sliding, count(1); => C3 at 232
# a negative count
windows: L: sliding, count(1); R: sliding, count(-1); => C3 at 254
# a trigger
windows: L: sliding, count(1), count(1); R: sliding, count(1); => C3 at 236
# a trigger of a difference
windows: L: sliding, count(1); R: sliding, delta(d, 1l), count(1); => C3 at 262
# a tumbling window
windows: L: tumbling, count(1); R: sliding, count(1); => C3 at 217
# markers
windows: L: sliding, punct(); R: sliding, count(1); => C3 at 226
# partitioned first
windows: L: partitioned, sliding, count(1); R: sliding, count(1); => C3 at 217
# partitioned last
windows: L: sliding, count(1); R: sliding, count(1), partitioned; => C3 at 258
# a kind alone
windows: L: sliding, count(1); R: sliding; => C3 at 236
# an attribute of the other port
windows: L: sliding, delta(d, 1l); R: sliding, count(1); => Y1 at 232 d
# a limit of another type
windows: L: sliding, delta(a, 1l); R: sliding, count(1); => C3 at 235
# an unknown port
windows: L: sliding, count(1); R: sliding, count(1); J: sliding, count(1); => Y1 at 258 J
# two windows of a port
windows: L: sliding, count(1); L: sliding, count(1); R: sliding, count(1); => C2 at 236 window

# No window of a join is absent.
# no window clause
two: stream<int64 b, int64 d> J = Join(L; R); => C3 at 166
# the left one alone
two: stream<int64 b, int64 d> J = Join(L; R) {window L: sliding, count(1);} => C3 at 166
# the right one alone
two: stream<int64 b, int64 d> J = Join(L; R) {window R: sliding, count(1);} => C3 at 166
# a stream at both ports
two: stream<int64 b> J = Join(L; L) {window L: sliding, count(1);} => C3 at 166
# a stream twice at both ports
two: stream<int64 b> J = Join(L; L) {window L: sliding, count(1); L: sliding, count(1);} => C2 at 227 window
"#;
