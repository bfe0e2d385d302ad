//! Parameters of operators: those that are absent, too many, or of another form.

pub(crate) const ROWS: &str = r#"
# A parameter that an operator needs is given.
one: stream<int32 a> T = FileSource() {param format: csv; parsing: strict;} => C1 at 105 file
one: () as O = FileSink(S); => C1 at 105 file
one: stream<S> P = Punctor(S) {param position: after;} => C1 at 105 punctuation
one: stream<S> P = Punctor(S) {param punctuation: c;} => C1 at 105 position
one: (stream<S> A; stream<S> B) = Split(S); => C1 at 105 index
one: stream<int32 a> A = Aggregate(S) {window S: partitioned, tumbling, count(2); param groupBy: a;} => C1 at 105 partitionBy

# An operator has no other parameters.
one: stream<int32 a> T = FileSource() {param file: 't'; separator: ',';} => C2 at 156 separator
one: stream<int32 a> T = FileSource() {param filter: true; file: 't';} => C2 at 145 filter
one: () as O = FileSink(S) {param file: 'o'; parsing: strict;} => C2 at 145 parsing
one: () as O = FileSink(S) {param file: 'o'; flush: 1;} => C2 at 145 flush
one: stream<S> F = Filter(S) {param match: c;} => C2 at 136 match
one: stream<S> F = Functor(S) {param index: a;} => C2 at 137 index
one: stream<S> P = Punctor(S) {param punctuation: c; position: after; filter: c;} => C2 at 170 filter
one: stream<S> A = Split(S) {param index: a; filter: c;} => C2 at 145 filter
one: stream<S> U = Union(S) {param filter: c;} => C2 at 135 filter
one: () as X = Custom(S) {param filter: c;} => C2 at 132 filter
one: stream<int32 a> A = Aggregate(S) {window S: tumbling, count(2); param filter: c;} => C2 at 175 filter
one: stream<int32 a> A = Aggregate(S) {window S: tumbling, count(2); param groupBy: a; match: c;} => C2 at 187 match
one: stream<int32 a> A = Aggregate(S) {window S: tumbling, count(2); param partitionBy: a;} => C2 at 175 partitionBy
one: stream<S> J = Join(S; S as T) {window S: sliding, count(1); T: sliding, count(1); param filter: true;} => C2 at 193 filter
one: stream<S> J = Join(S; S as T) {window S: sliding, count(1); T: sliding, count(1); param partitionBy: a;} => C2 at 193 partitionBy
one: stream<S> J = Join(S; S as T) {window S: sliding, count(1); T: sliding, count(1); param groupBy: a;} => C2 at 193 groupBy
one: stream<S> F = Filter(S) {param Filter: c;} => C2 at 136 Filter

# An operator has no other clauses.
one: stream<int32 a> T = FileSource() {window T: tumbling, count(1); param file: 't';} => C2 at 139 window
one: () as O = FileSink(S) {window S: tumbling, count(1); param file: 'o';} => C2 at 128 window
one: stream<S> F = Filter(S) {window S: tumbling, count(1);} => C2 at 130 window
one: stream<S> F = Functor(S) {window S: tumbling, count(1);} => C2 at 131 window
one: stream<S> P = Punctor(S) {window S: tumbling, count(1); param punctuation: c; position: after;} => C2 at 131 window
one: stream<S> A = Split(S) {window S: tumbling, count(1); param index: a;} => C2 at 129 window
one: stream<S> U = Union(S) {window S: sliding, count(1);} => C2 at 129 window
one: () as X = Custom(S) {window S: tumbling, count(1);} => C2 at 126 window
one: stream<S> F = Filter(S) {window} => C2 at 130 window
one: stream<int32 a> T = FileSource() {param file: 't'; output T: a = 1;} => C2 at 156 output
one: () as O = FileSink(S) {param file: 'o'; output O: a = 1;} => C2 at 145 output
one: stream<S> F = Filter(S) {output F: a = 1;} => C2 at 130 output
one: stream<S> P = Punctor(S) {param punctuation: c; position: after; output P: a = 1;} => C2 at 170 output
one: stream<S> A = Split(S) {param index: a; output A: a = 1;} => C2 at 145 output
one: stream<S> U = Union(S) {output U: a = 1;} => C2 at 129 output
one: stream<S> C = Custom(S) {output C: a = 1;} => C2 at 130 output
one: stream<S> F = Filter(S) {output} => C2 at 130 output

# A parameter is given once.
one: stream<int32 a> T = FileSource() {param file: 't'; file: 't';} => C2 at 156 file
one: stream<int32 a> T = FileSource() {param file: 't'; format: csv; format: csv;} => C2 at 169 format
one: stream<int32 a> T = FileSource() {param parsing: strict; file: 't'; parsing: strict;} => C2 at 173 parsing
one: () as O = FileSink(S) {param file: 'o'; format: csv; file: 'p';} => C2 at 158 file
one: () as O = FileSink(S) {param format: csv; format: csv; file: 'o';} => C2 at 147 format
one: stream<S> F = Filter(S) {param filter: c; filter: c;} => C2 at 147 filter
one: stream<S> F = Functor(S) {param filter: c; filter: c;} => C2 at 148 filter
one: stream<S> P = Punctor(S) {param punctuation: c; punctuation: c; position: after;} => C2 at 153 punctuation
one: stream<S> P = Punctor(S) {param position: after; punctuation: c; position: before;} => C2 at 170 position
one: stream<S> A = Split(S) {param index: a; index: a;} => C2 at 145 index
one: stream<int32 a> A = Aggregate(S) {window S: partitioned, tumbling, count(2); param partitionBy: a; partitionBy: s;} => C2 at 204 partitionBy
one: stream<int32 a> A = Aggregate(S) {window S: tumbling, count(2); param groupBy: a; groupBy: s;} => C2 at 187 groupBy
one: stream<int32 z> J = Join(S; S as T) {window S: sliding, count(1); T: sliding, count(1); param match: true; match: true; output J: z = 1;} => C2 at 212 match

# A config has placements alone.
one: stream<S> F = Filter(S) {config placement: anywhere(x), 'y', 1;} => ok 2 operators 2 streams
one: stream<S> F = Filter(S) {config placement: 1; placement: 2;} => ok 2 operators 2 streams
one: stream<S> F = Filter(S) {config restartable: true;} => Y5 at 137 restartable
one: () as O = FileSink(S) {param file: 'o'; config placement: 1; threadedPort: 1;} => Y5 at 166 threadedPort
one: stream<int32 a> T = FileSource() {param file: 't'; config logLevel: 1;} => Y5 at 163 logLevel

# A config of a composite or of its invocation may hold anything.
# a composite's
composite Main {graph stream<int32 a> S = FileSource() {param file: 's';} config logLevel: 1; placement: x;} => ok 1 operators 1 streams
# an invocation's
composite C(output O) {graph stream<int32 a> O = FileSource() {param file: 's';}} composite Main {graph stream<int32 a> S = C() {config logLevel: 1;}} => ok 1 operators 1 streams
"#;
