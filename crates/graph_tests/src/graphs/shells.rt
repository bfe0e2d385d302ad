//! What comes before the texts of rows, in place of `…`, and what comes after.

/// A line a shell, after its word.
pub(crate) const SHELLS: &str = r#"
# The invocation of a composite with an output, an input, and a parameter without and one with a default.
invoke: composite C(output O; input I) {param expression<int64> $x; expression<int64> $y: 1l; graph stream<T> O = Filter(I);} composite Main {graph stream<T> S = FileSource(); …}
# Operators in a composite with an input and parameters for files.
files: composite C(input I) {param expression<rstring> $first: 'd'; expression<rstring> $second: $first; expression<rstring> $third: $third; graph …} composite Main {graph stream<T> S = FileSource(); () as A = C(S);}
"#;
