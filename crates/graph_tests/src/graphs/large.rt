//! Long programs, programs that nest deep, and programs that grow fast.

pub(crate) const ROWS: &str = r#"
# As many operators as there may be, and one more.
composite Main {graph «1000 256 stream<T> S{n} as A{n+1} = FileSource(); »} => 256 operators 256 streams 1 bodies
composite Main {graph «1000 257 stream<T> S{n} as A{n+1} = FileSource(); »} => E6 at 10518

# Inputs that double: as many connections as streams of the last input.
«1000 10 composite C{n}(input I) {graph () as X = C{n+1}(I, I);} »composite C1010(input I) {graph () as X = FileSink(I);} composite Main {graph stream<T> S = FileSource(); () as A = C1000(S);} => 2 operators 1 streams 12 bodies
«1000 30 composite C{n}(input I) {graph () as X = C{n+1}(I, I);} »composite C1030(input I) {graph () as X = FileSink(I);} composite Main {graph stream<T> S = FileSource(); () as A = C1000(S);} => E6 at 1712

# Operators in a circle.
composite Main {graph «1000 255 stream<T> S{n} = Filter(S{n+1}); »stream<T> S1255 = Filter(S1000);} => E4 at 22 S1000

# Bodies double up to as many operators as there may be.
«0 8 composite C{n} {graph () as X = C{n+1}(); () as Y = C{n+1}();} »composite C8 {graph stream<T> O = FileSource();} composite Main {graph () as A = C0();} => 256 operators 256 streams 512 bodies
«0 9 composite C{n} {graph () as X = C{n+1}(); () as Y = C{n+1}();} »composite C9 {graph stream<T> O = FileSource();} composite Main {graph () as A = C0();} => E6 at 497
«0 10 composite C{n} {graph () as X = C{n+1}(); () as Y = C{n+1}();} »composite C10 {graph stream<T> O = FileSource();} composite Main {graph () as A = C0();} => E6 at 553
«0 60 composite C{n} {graph () as X = C{n+1}(); () as Y = C{n+1}();} »composite C60 {graph stream<T> O = FileSource();} composite Main {graph () as A = C0();} => E6 at 3353
«0 60 composite C{n} {graph () as X = C{n+1}(); () as Y = C{n+1}();} »composite C60 {} composite Main {graph () as A = C0();} => 0 operators 0 streams 1 bodies

# Inputs may take many streams: each of a composite those of an input around it, which are of one operator.
composite C(input I«1 255 , I{n}») {graph () as X = FileSink(I); «1 253 () as X{n} = FileSink(I{n}); »} composite D(input I) {graph () as X = C(I«1 255 ; I»);} composite Main {graph stream<T> S = FileSource(); (stream<T> A«1 999 ; stream<T> A{n}») = Split(S) {param index: 0;} () as B = D(A«1 999 , A{n}»);} => 256 operators 1001 streams 3 bodies
"#;

pub(crate) const NESTED: &str = r#"
# One body in another, many times.
«10000 20000 composite C{n} {graph () as X = C{n+1}();} »composite C30000 {graph () as X = FileSink(S); stream<T> S = FileSource();} composite Main {graph () as A = C10000();} => 2 operators 1 streams 20002 bodies
"#;

pub(crate) const SCATTERED: &str = r#"
# The same where they stand far from one another in the text.
«1000 2000 composite C{n}0 {graph () as X = C{n}1();} »«1000 2000 composite C{n}1 {graph () as X = C{n}2();} »«1000 2000 composite C{n}2 {graph () as X = C{n}3();} »«1000 2000 composite C{n}3 {graph () as X = C{n}4();} »«1000 2000 composite C{n}4 {graph () as X = C{n}5();} »«1000 2000 composite C{n}5 {graph () as X = C{n}6();} »«1000 2000 composite C{n}6 {graph () as X = C{n}7();} »«1000 2000 composite C{n}7 {graph () as X = C{n}8();} »«1000 2000 composite C{n}8 {graph () as X = C{n}9();} »«1000 2000 composite C{n}9 {graph () as X = C{n+1}0();} »composite C30000 {graph stream<T> S = FileSource();} composite Main {graph () as A = C10000();} => 1 operators 1 streams 20002 bodies
"#;

pub(crate) const CIRCLES: &str = r#"
# The last composite reaches the first one, and itself.
composite Main {} «10000 20000 composite C{n} {graph () as X = C{n+1}();} »composite C30000 {graph () as X = C10000();} => E2 at 42 C10000
composite Main {} «10000 2000 composite C{n} {graph () as X = C{n+1}();} »composite C12000 {graph () as X = C12000();} => E2 at 90042 C12000
"#;
