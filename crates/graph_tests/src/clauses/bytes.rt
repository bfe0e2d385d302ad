//! Programs with bytes that are no UTF-8.

pub(crate) const ROWS: &str = "
# a byte that begins no character
composite Main {graph stream<int32 a> T = FileSource() {param file: '\u{ff}';}} => Y2 at 68
# a character that isn't whole
composite Main {graph stream<int32 a> T = FileSource() {param format: csv; file: 'a\u{c3}';}} => Y2 at 81
# a character in too many bytes
composite Main {graph stream<int32 a> T = FileSource() {param file: '\u{c0}\u{af}';}} => Y2 at 68
# the file of a sink
composite Main {graph stream<int32 a> S = FileSource() {param file: 's';} () as O = FileSink(S) {param file: '\u{80}';}} => Y2 at 109
# any bytes in a text that is no file
composite Main {graph stream<rstring s> S = FileSource() {param file: 's';} stream<S> F = Filter(S) {param filter: s == '\u{ff}\u{c0}';}} => ok 2 operators 2 streams
";
