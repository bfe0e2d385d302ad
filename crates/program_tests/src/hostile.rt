//! Programs of which something is repeated so often that a slow way of checking them would be seen, or would
//! need more stack or memory than there is.

/// By `check`, unless the row has its own words.
pub(crate) const HOSTILE: &str = r#"
# Functions that call one another don't nest where they are checked.
# each calls the one before
@spread int32 f0(int32 a) {return a;} «0 20000 int32 f{n+1}(int32 a) {return f{n}(a);} »composite Main {} => 0 ok 0 operators 0 streams␊
# each calls the next one
@spread «0 20000 int32 f{n}(int32 a) {return f{n+1}(a);} »int32 f20000(int32 a) {return a;} composite Main {} => 0 ok 0 operators 0 streams␊
# the last one calls the first one
@spread «10000 20000 int32 f{n}(int32 a) {return f{n+1}(a);} »int32 f30000(int32 a) {return f10000(a);} composite Main {} => 2 refused E2 at 30 f10000␊
# one calls all the others
@spread «0 20000 void f{n}() {} »void g() {«0 20000 f{n}(); »} composite Main {} => 0 ok 0 operators 0 streams␊
# one that isn't there is called after them
@spread «10000 20000 int32 f{n}(int32 a) {return f{n+1}(a);} »composite Main {} => 2 refused Y1 at 839988 f30000␊

# Casts in a row weigh nothing, signs and sums weigh one each.
@spread int8 f(int8 a) {return «0 60000 (int8)»a;} composite Main {} => 0 ok 0 operators 0 streams␊
@spread int32 f(int32 a) {return «0 100000 -»a;} composite Main {} => 2 refused S2 at 224␊
@spread int32 f() {return 1«0 99999  + 1»;} composite Main {} => 2 refused S2 at 816␊

# A comma sets the weight back.
# casts, signs and sums of each element
@spread list<int8> f(int8 a) {return [(int8) a«0 59999 , (int8) a»];} composite Main {} => 0 ok 0 operators 0 streams␊
@spread list<int32> f(int32 a) {return [-a«0 99999 , -a»];} composite Main {} => 0 ok 0 operators 0 streams␊
@spread list<int32> f() {return [1 + 1«0 99999 , 1 + 1»];} composite Main {} => 0 ok 0 operators 0 streams␊
# as many signs as an element may have, and one more
@spread list<int32> f(int32 a) {return [«0 500 ----------------------------------------------------------------------------------------------------------------------------------------------------------------------------------------------------a, »a];} composite Main {} => 0 ok 0 operators 0 streams␊
@spread list<int32> f(int32 a) {return [«0 500 ----------------------------------------------------------------------------------------------------------------------------------------------------------------------------------------------------a, »-----------------------------------------------------------------------------------------------------------------------------------------------------------------------------------------------------a];} composite Main {} => 2 refused S2 at 99728␊

# Long rows of one form.
# elements of a list
@spread list<int32> f() {return [1«0 199999 , 1»];} composite Main {} => 0 ok 0 operators 0 streams␊
# an element of another type after them
@spread list<int32> f() {return [1«0 199999 , 1», true];} composite Main {} => 2 refused Y2 at 600025␊
# branches
@spread void f(int32 a) {if (a == 0) return;«0 20000  else if (a == {n}) return;»} composite Main {} => 0 ok 0 operators 0 streams␊
# bytes of a text
@spread rstring f() {return "«0 9000 xxxxxxxxxxxxxxxxxxxxxxxxxxxxxxxxxxxxxxxxxxxxxxxxxxxxxxxxxxxxxxxxxxxxxxxxxxxxxxxxxxxxxxxxxxxxxxxxxxxx»";} composite Main {} => 0 ok 0 operators 0 streams␊
# one that isn't closed
@spread rstring f() {return "«0 9000 xxxxxxxxxxxxxxxxxxxxxxxxxxxxxxxxxxxxxxxxxxxxxxxxxxxxxxxxxxxxxxxxxxxxxxxxxxxxxxxxxxxxxxxxxxxxxxxxxxxx»;} composite Main {} => 2 refused L2 at 20␊

# A program is a mebibyte at most. It may be all blanks but for a composite, or all one comment, or all tokens.
@padded 1048576 composite Main {} => 0 ok 0 operators 0 streams␊
@padded 1048577 composite Main {} => 2 refused L5 at 1048576␊
@spread /*«0 65534 xxxxxxxxxxxxxxxx»xxxxxxxxxxx*/composite Main {} => 0 ok 0 operators 0 streams␊
@spread /*«0 65534 xxxxxxxxxxxxxxxx»xxxxxxxxxxxx*/composite Main {} => 2 refused L5 at 1048576␊
@spread composite Main {}/*«0 65534 xxxxxxxxxxxxxxxx»xxxxxxxxxxxxx => 2 refused L3 at 17␊
@spread list<int32> f() {return [1«0 65533 ,1,1,1,1,1,1,1,1»]; } composite Main {} => 0 ok 0 operators 0 streams␊
@spread list<int32> f() {return [1«0 65533 ,1,1,1,1,1,1,1,1»]; } composite Main { } => 2 refused L5 at 1048576␊
@spread «0 65536 ;;;;;;;;;;;;;;;;» => 2 refused S1 at 0␊
@spread «0 65536 ((((((((((((((((» => 2 refused S2 at 200␊
@spread «0 65536 ;;;;;;;;;;;;;;;;»; => 2 refused L5 at 1048576␊

# Calls within one another nest where they are evaluated: two of the evaluator's levels for each, of 1,500.
@spread int32 f0(int32 a) {return a;} «0 699 int32 f{n+1}(int32 a) {return f{n}(a);} »composite Main {graph stream<int32 a> T = FileSource() {param file: "t.csv";} stream<T> B = Filter(T) {param filter: f699(a) == 7;} () as Out = FileSink(B) {param file: "o.csv";}} | t.csv: 7␊ | $ run p.spl => 0; o.csv 7␊; counts 2:1
@spread int32 f0(int32 a) {return a;} «0 699 int32 f{n+1}(int32 a) {return f{n}(a);} »composite Main {graph stream<int32 a> T = FileSource() {param file: "t.csv";} stream<T> B = Custom(T) {logic onTuple T: {submit({a = f699(a)}, B);}} () as Out = FileSink(B) {param file: "o.csv";}} | t.csv: 7␊ | $ run p.spl => 0; o.csv 7␊; counts 2:1
@spread int32 f0(int32 a) {return a;} «0 1599 int32 f{n+1}(int32 a) {return f{n}(a);} »composite Main {graph stream<int32 a> T = FileSource() {param file: "t.csv";} stream<T> B = Filter(T) {param filter: f1599(a) == 7;} () as Out = FileSink(B) {param file: "o.csv";}} | t.csv: 7␊ | $ run p.spl => 9 no memory␊
@spread int32 f0(int32 a) {return a;} «0 1599 int32 f{n+1}(int32 a) {return f{n}(a);} »composite Main {graph stream<int32 a> T = FileSource() {param file: "t.csv";} stream<T> B = Custom(T) {logic onTuple T: {submit({a = f1599(a)}, B);}} () as Out = FileSink(B) {param file: "o.csv";}} | t.csv: 7␊ | $ run p.spl => 9 no memory␊
"#;
