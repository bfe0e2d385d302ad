//! Long programs, and programs that nest deep.

pub(crate) const ROWS: &str = r#"
# Long programs are read
void f() {return «0 199 (»a«0 199 )»;} => void f() {return «0 199 <»a«0 199 >»;}
void f() «0 200 {»«0 200 }» => void f() «0 200 {»«0 200 }»
type T = «0 99 list<»int8«0 99 >»; => type T = «0 99 list<»int8«0 99 >»
void f() {«0 256 while (a) »x = 1;} => void f() {«0 256 while (a) [»x = 1;«0 256 ]»}
void f() {«0 256 if (a) »x = 1;«0 256  else y = 2;»} => void f() {«0 256 if (a) [»x = 1;«0 256 ] else [y = 2;]»}
void f() {if (a) x = 1;«0 300  else if (b) x = 2;»} => void f() {if (a) [x = 1;]«0 300  else if (b) [x = 2;]»}
void f() {x = 0;«0 10000  x = 1;»} => void f() {x = 0;«0 10000  x = 1;»}
composite A {}«0 999  composite B(output C) {graph stream<T> C = F() {}}» => composite A«0 999 ; composite B(output C) graph [(stream<T> C) = F()]»

# What is too deep is refused before what is wrong
void f() {return «0 200 (»a«0 200 )»;} => too deep 216
# What is wrong in front of what is too deep
; void f() {return «0 200 (»a«0 200 )»;} => too deep 218
void f() {return «0 200 (»«0 200 )»;} => too deep 216
# The same without what is too deep
; void f() {return «0 199 (»a«0 199 )»;} => unexpected 0
void f() {return «0 199 (»«0 199 )»;} => unexpected 216
void f() {return «0 199 (» => unexpected 216
void f() «0 201 {»«0 201 }» => too deep 209
type T = «0 100 list<»int8«0 100 >»; => too deep 612
# Statements that nest without weight
void f() {«0 257 while (a) »x = 1;} => memory
void f() {«0 300 while (a) »x = 1;} => memory
void f() {«0 300 if (a) »x = 1;} => memory
void f() {«0 300 for (T t in a) »x = 1;} => memory
void f() {«0 300 if (a) x = 1; else while (b) »x = 2;} => memory

# A condition is as deep as its weight allows
composite Main {␊  graph␊    stream<int64 price> T = FileSource() { param file: "t.csv"; format: csv; }␊    stream<int64 price> B = Filter(T) { param filter: price > 10l; }␊    () as Out = FileSink(B) { param file: "o.csv"; format: csv; }␊}␊ => composite Main graph [(stream<(int64 price)> T) = FileSource() param [file: 't.csv'; format: csv]; (stream<(int64 price)> B) = Filter(T) param [filter: (price > 10l)]; () as Out = FileSink(B) param [file: 'o.csv'; format: csv]]
composite Main {␊  graph␊    stream<int64 price> T = FileSource() { param file: "t.csv"; format: csv; }␊    stream<int64 price> B = Filter(T) { param filter: (price) > 10l; }␊    () as Out = FileSink(B) { param file: "o.csv"; format: csv; }␊}␊ => composite Main graph [(stream<(int64 price)> T) = FileSource() param [file: 't.csv'; format: csv]; (stream<(int64 price)> B) = Filter(T) param [filter: (<price> > 10l)]; () as Out = FileSink(B) param [file: 'o.csv'; format: csv]]
composite Main {␊  graph␊    stream<int64 price> T = FileSource() { param file: "t.csv"; format: csv; }␊    stream<int64 price> B = Filter(T) { param filter: «0 194 (»price«0 194 )» > 10l; }␊    () as Out = FileSink(B) { param file: "o.csv"; format: csv; }␊}␊ => composite Main graph [(stream<(int64 price)> T) = FileSource() param [file: 't.csv'; format: csv]; (stream<(int64 price)> B) = Filter(T) param [filter: («0 194 <»price«0 194 >» > 10l)]; () as Out = FileSink(B) param [file: 'o.csv'; format: csv]]
composite Main {␊  graph␊    stream<int64 price> T = FileSource() { param file: "t.csv"; format: csv; }␊    stream<int64 price> B = Filter(T) { param filter: «0 195 (»price«0 195 )» > 10l; }␊    () as Out = FileSink(B) { param file: "o.csv"; format: csv; }␊}␊ => too deep 352
"#;
