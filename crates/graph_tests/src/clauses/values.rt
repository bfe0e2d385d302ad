//! Values of parameters of operators: files, words, conditions, indexes and keys.

pub(crate) const ROWS: &str = r#"
# A file is a text literal that names one.
graph: stream<int32 a> T = FileSource() {param file: '';} => Y2 at 68
graph: stream<int32 a> T = FileSource() {param file: "-";} => Y2 at 68
graph: stream<int32 a> T = FileSource() {param file: '-a';} => ok 1 operators 1 streams
graph: stream<int32 a> T = FileSource() {param file: ' ';} => ok 1 operators 1 streams
graph: stream<int32 a> T = FileSource() {param file: 'größe';} => ok 1 operators 1 streams
graph: stream<int32 a> T = FileSource() {param file: 7;} => Y2 at 68
graph: stream<int32 a> T = FileSource() {param file: true;} => Y2 at 68
graph: stream<int32 a> T = FileSource() {param file: t;} => Y2 at 68
graph: stream<int32 a> T = FileSource() {param file: 'a' + 'b';} => Y2 at 68
graph: stream<int32 a> T = FileSource() {param file: substring('abc', 0, 1);} => Y2 at 68
graph: stream<int32 a> T = FileSource() {param file: 'a', 'b';} => Y2 at 73

# The file of a sink is one too.
one: () as O = FileSink(S) {param file: "";} => Y2 at 140
one: () as O = FileSink(S) {param file: '-';} => Y2 at 140
one: () as O = FileSink(S) {param file: s;} => Y2 at 140
one: () as O = FileSink(S) {param file: 'o', 'p';} => Y2 at 145

# A word of a parameter is one of its words.
one: stream<int32 a> T = FileSource() {param file: 't'; format: tsv;} => Y2 at 164
one: stream<int32 a> T = FileSource() {param format: 'csv'; file: 't';} => Y2 at 153
one: () as O = FileSink(S) {param file: 'o'; format: CSV;} => Y2 at 153
one: () as O = FileSink(S) {param file: 'o'; format: csv, csv;} => Y2 at 158
one: stream<int32 a> T = FileSource() {param file: 't'; parsing: fast;} => Y2 at 165
one: stream<int32 a> T = FileSource() {param file: 't'; parsing: 'strict';} => Y2 at 165
one: stream<int32 a> T = FileSource() {param file: 't'; parsing: strict, permissive;} => Y2 at 173
one: stream<S> P = Punctor(S) {param punctuation: c; position: between;} => Y2 at 163
one: stream<S> P = Punctor(S) {param position: 1; punctuation: c;} => Y2 at 147
one: stream<S> P = Punctor(S) {param punctuation: c; position: before, after;} => Y2 at 171

# A value of a parameter has its type.
# an index that is a text
one: stream<S> A = Split(S) {param index: s;} => Y2 at 142
# an index that is boolean
one: stream<S> A = Split(S) {param index: a > 0;} => Y2 at 142
# several indexes
one: stream<S> A = Split(S) {param index: a, a;} => Y2 at 145
# a condition that is a number
one: stream<S> F = Filter(S) {param filter: a;} => Y2 at 144
# a condition that is a sum
one: stream<S> F = Filter(S) {param filter: s + 'x';} => Y2 at 144
# numbers of two types
one: stream<S> F = Filter(S) {param filter: a > 1l;} => Y2 at 148
# several conditions
one: stream<S> F = Filter(S) {param filter: c, c;} => Y2 at 147
# an unknown attribute
one: stream<S> F = Filter(S) {param filter: d;} => Y1 at 144 d
# an unknown attribute of the port
one: stream<S> F = Filter(S) {param filter: S.d;} => Y1 at 146 d
# the output of a Filter in its condition
one: stream<S> F = Filter(S) {param filter: F.c;} => Y1 at 144 F
# the stream of a port with an alias
one: stream<S> F = Filter(S as P) {param filter: P.c && S.c;} => Y1 at 156 S
# the second stream of a port
one: stream<S> F = Filter(S); stream<S> G = Filter(S, F) {param filter: S.c && F.c;} => Y1 at 179 F
# the condition of a Functor
one: stream<S> F = Functor(S) {param filter: b;} => Y2 at 145
# punctuation that is a text
one: stream<S> P = Punctor(S) {param position: after; punctuation: s;} => Y2 at 167
# a match that is a number
one: stream<int32 z> J = Join(S; S as T) {window S: sliding, count(1); T: sliding, count(1); param match: S.a; output J: z = 1;} => Y2 at 206
# a match of two types
one: stream<int32 z> J = Join(S; S as T) {window S: sliding, count(1); T: sliding, count(1); param match: S.a == T.b; output J: z = 1;} => Y2 at 213
# an attribute of both ports
one: stream<int32 z> J = Join(S; S as T) {window S: sliding, count(1); T: sliding, count(1); param match: c; output J: z = 1;} => Y1 at 206 c
# several matches
one: stream<int32 z> J = Join(S; S as T) {window S: sliding, count(1); T: sliding, count(1); param match: S.c, T.c; output J: z = 1;} => Y2 at 211
# the marker in a condition
one: stream<S> F = Filter(S) {param filter: currentPunct() == Sys.WindowMarker;} => Y4 at 144
# an output function in a condition
one: stream<S> F = Filter(S) {param filter: Count() > 1;} => Y1 at 144 Count

# Keys are attributes of integer boolean or text type.
one: stream<int32 a> A = Aggregate(S) {window S: partitioned, tumbling, count(2); param partitionBy: c, s, b; groupBy: s, a;} => ok 2 operators 2 streams
one: stream<int32 a> A = Aggregate(S) {window S: partitioned, tumbling, count(2); param partitionBy: a, d;} => Y1 at 204 d
one: stream<int32 a> A = Aggregate(S) {window S: partitioned, tumbling, count(2); param partitionBy: a, s, a;} => Y2 at 207
one: stream<int32 a> A = Aggregate(S) {window S: partitioned, tumbling, count(2); param partitionBy: S.a;} => Y2 at 201
one: stream<int32 a> A = Aggregate(S) {window S: partitioned, tumbling, count(2); param partitionBy: 1;} => Y2 at 201
one: stream<int32 a> A = Aggregate(S) {window S: partitioned, tumbling, count(2); param partitionBy: a + 1;} => Y2 at 201
one: stream<int32 a> A = Aggregate(S) {window S: partitioned, tumbling, count(2); param partitionBy: S;} => Y1 at 201 S
one: stream<int32 a> A = Aggregate(S) {window S: tumbling, count(2); param groupBy: d;} => Y1 at 184 d
one: stream<int32 a> A = Aggregate(S) {window S: tumbling, count(2); param groupBy: a, a;} => Y2 at 187
one: stream<int32 a> A = Aggregate(S) {window S: tumbling, count(2); param groupBy: 'a';} => Y2 at 184
one: stream<int32 a> A = Aggregate(S) {window S: tumbling, count(2); param groupBy: a, S.b;} => Y2 at 187

# Keys are no lists maps or tuples.
wide: stream<int32 a> A = Aggregate(W) {window W: partitioned, tumbling, count(2); param partitionBy: l;} => Y2 at 326
wide: stream<int32 a> A = Aggregate(W) {window W: partitioned, tumbling, count(2); param partitionBy: a, m;} => Y2 at 329
wide: stream<int32 a> A = Aggregate(W) {window W: partitioned, tumbling, count(2); param partitionBy: t;} => Y2 at 326
wide: stream<int32 a> A = Aggregate(W) {window W: tumbling, count(2); param groupBy: l;} => Y2 at 309
wide: stream<int32 a> A = Aggregate(W) {window W: tumbling, count(2); param groupBy: m;} => Y2 at 309
wide: stream<int32 a> A = Aggregate(W) {window W: tumbling, count(2); param groupBy: s, t;} => Y2 at 312
"#;
