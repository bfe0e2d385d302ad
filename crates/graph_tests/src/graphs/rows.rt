//! Programs that have a graph.

pub(crate) const ROWS: &str = r#"
# Operators stand in the order of the text.
composite A {} =>  |  | 0:
composite A {} composite Main {graph stream<T> B = FileSource();} => FileSource B() 0 | 0 | 1: 0
composite A(output B) {graph stream<T> B = FileSource();} composite C {} =>  |  | 1:
composite A {graph stream<T> B = FileSource(); () as C = FileSink(B);} => FileSource B() 0; FileSink C(0) | 0 1 | 0: 0
composite A {graph stream<T> B as C = FileSource(); () as D = FileSink(B);} => FileSource C() 0; FileSink D(0) | 0 1 | 0: 0
composite A {graph (stream<T> B; stream<T> C) = Split(D) {param index: 0;} stream<T> D = FileSource(); stream<T> E = Union(C; D; B, C);} => Split B(2) 0 1; FileSource D() 2; Union E(1, 2, 0 1) 3 | 1 0 2 | 0: 0 1 2 3
composite A {graph stream<T> B = Functor(D); stream<T> C = Punctor(D); stream<T> D = FileSource(); stream<T> E = Join(C; B); stream<T> F = Custom(E); stream<T> G = Aggregate(F);} => Functor B(2) 0; Punctor C(2) 1; FileSource D() 2; Join E(1, 0) 3; Custom F(3) 4; Aggregate G(4) 5 | 2 0 1 3 4 5 | 0: 0 1 2 3 4 5

# Bodies stand where their composites are invoked.
composite C(output O; input I) {graph stream<T> O = Filter(I);} composite Main {graph stream<T> S = FileSource(); stream<T> A = C(S); stream<T> B as D = C(A); () as E = FileSink(B);} => FileSource S() 0; Filter A.O(0) 1; Filter D.O(1) 2; FileSink E(2) | 0 1 2 3 | 1: 0 1 2; 0@0.1: 1 (1 from 0); 0@0.2: 2 (1 from 1)
composite Main {graph stream<T> A = C(S); stream<T> S = FileSource();} composite C(output O; input I) {graph stream<T> O = Filter(P); stream<T> P as Q = Filter(I);} => Filter A.O(1) 0; Filter A.Q(2) 1; FileSource S() 2 | 2 1 0 | 0: 0 2; 1@0.0: 0 1 (1 from 2)
composite C(output O; input I) {graph stream<T> O = Union(I; P, I, I); stream<T> P = D(I);} composite D(output O; input I) {graph stream<T> O = Join(I; I);} composite Main {graph stream<T> S = FileSource(); stream<T> R = FileSource(); stream<T> A = C(R, S);} => FileSource S() 0; FileSource R() 1; Union A.O(1 0, 3 1 0 1 0) 2; Join A.P.O(1 0, 1 0) 3 | 0 1 3 2 | 2: 0 1 2; 0@0.2: 2 3 (2 from 1); 1@1.1: 3 (2 from 1)
composite C(output O, P; input I, J) {graph (stream<T> P; stream<T> O) = Split(J) {param index: 0;} () as X = FileSink(I);} composite Main {graph stream<T> S = FileSource(); (stream<T> A; stream<T> B) as N = C(B; S);} => FileSource S() 0; Split N.P(0) 1 2; FileSink N.X(1) | 0 1 2 | 1: 0 2 1; 0@0.1: 1 2 (1 from 1) (1 from 0)
composite D(output O; input I) {param expression<int64> $x; graph stream<T> O = Filter(I) {param filter: a > $x;}} composite C(output O; input I) {param expression<int64> $y; expression<int64> $z: 1l; graph stream<T> O = D(P) {param x: $y + $z;} stream<T> P = D(I) {param x: $z;}} composite Main {graph stream<T> S = FileSource(); stream<T> A = C(S) {param y: 2l;} stream<T> B = C(A) {param z: 3l; y: 4l;}} => FileSource S() 0; Filter A.O.O(2) 1; Filter A.P.O(0) 2; Filter B.O.O(4) 3; Filter B.P.O(1) 4 | 0 2 1 4 3 | 2: 0 1 3; 1@0.1: 1 2 (1 from 0); 0@1.0: 1 (1 from 2); 0@1.1: 2 (1 from 0); 1@0.2: 3 4 (1 from 1); 0@4.0: 3 (1 from 4); 0@4.1: 4 (1 from 1)
composite Filter(output O; input I) {graph stream<T> O = Functor(I);} composite Main {graph stream<T> S = FileSource(); stream<T> A = Filter(S);} => FileSource S() 0; Functor A.O(0) 1 | 0 1 | 1: 0 1; 0@0.1: 1 (1 from 0)
composite C {graph () as X = D(); () as Y = D();} composite D {} composite Main {graph () as X = C(); stream<T> S = FileSource(); () as Z = D();} => FileSource S() 0 | 0 | 2: 0
composite C(output O) {graph stream<T> O = D();} composite D(output P) {graph stream<T> P = FileSource();} composite Main {graph stream<T> A = C(); () as B = FileSink(A);} => FileSource A.O.P() 0; FileSink B(0) | 0 1 | 2: 0; 0@0.0: 0; 1@1.0: 0

# The trades program has nine operators and seven streams.
namespace demo.trades;␊type Trade = int64 ts, rstring sym, int64 price, int64 qty;␊composite Clean(output Good; input Raw) {␊  param expression<int64> $least : 1l;␊  graph␊    stream<Trade> Good = Filter(Raw) {␊      param filter: qty >= $least && price > 0l; // both must hold␊    }␊}␊composite Main {␊  graph␊    stream<Trade> In = FileSource() { param file: "trades.csv"; format: csv; }␊    stream<Trade> C1 = Clean(In) { param least: 10l; }␊    stream<Trade> C2 = Clean(In) { param least: 100l; }␊    stream<rstring sym, int64 value> V = Functor(C1) { output V: value = price * qty; }␊    stream<rstring sym, int64 total, int32 n> A = Aggregate(V) {␊      window V: sliding, count(2), count(1), partitioned;␊      param partitionBy: sym;␊      output A: sym = Any(sym), total = Sum(value), n = Count();␊    }␊    (stream<A> Lo; stream<A> Hi) = Split(A) { param index: total >= 10000l ? 1 : 0; }␊    () as LoOut = FileSink(Lo) { param file: "lo.csv"; format: csv; }␊    () as HiOut = FileSink(Hi) { param file: "hi.csv"; format: csv; }␊    () as BigOut = FileSink(C2) { param file: "big.csv"; format: csv; }␊}␊ => FileSource In() 0; Filter C1.Good(0) 1; Filter C2.Good(0) 2; Functor V(1) 3; Aggregate A(3) 4; Split Lo(4) 5 6; FileSink LoOut(5); FileSink HiOut(6); FileSink BigOut(2) | 0 1 2 3 4 5 6 7 8 | 1: 0 1 2 3 4 5 6; 0@0.1: 1 (1 from 0); 0@0.2: 2 (1 from 0)

# The first operator that is ready comes next.
# a chain from last to first
composite M {graph stream<T> A = Filter(B); stream<T> B = Filter(C); stream<T> C = FileSource();} => Filter A(1) 0; Filter B(2) 1; FileSource C() 2 | 2 1 0 | 0: 0 1 2
# also where it stands before the last one
composite M {graph stream<T> A = Union(B, C); stream<T> B = Filter(D); stream<T> C = Filter(D, D); stream<T> D = FileSource();} => Union A(1 2) 0; Filter B(3) 1; Filter C(3 3) 2; FileSource D() 3 | 3 1 2 0 | 0: 0 1 2 3
# the search begins anew at the first
composite M {graph stream<T> A = Filter(B); stream<T> B = FileSource(); stream<T> C = FileSource();} => Filter A(1) 0; FileSource B() 1; FileSource C() 2 | 1 0 2 | 0: 0 1 2
"#;
