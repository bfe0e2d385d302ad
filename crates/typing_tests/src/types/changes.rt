//! Calls that change a place. They give no value, so each is refused as an expression.

pub(crate) const ROWS: &str = r#"
# append m gives no value
# The call is right, but gives no value.
appendM(xs, 1l) => Y2 at 0
appendM(xs, 1l) -> list<int64> => Y2 at 0
appendM(g, []) => Y2 at 0
appendM(g[0], 1) => Y2 at 0
appendM(k[1], s) => Y2 at 0
xs == appendM(xs, 1l) => Y2 at 6
[appendM(xs, 1l)] => Y2 at 1
# An element of another type.
appendM(xs, 1) => Y2 at 12
appendM(xs, (1)) => Y2 at 13
appendM(g, [1l]) => Y2 at 12
appendM(k[1], 1) => Y2 at 14
appendM(xs, z) => Y1 at 12 z
# No list.
appendM(m, 'a') => Y4 at 0
appendM(s, 'a') => Y4 at 0
appendM(i, 1) => Y4 at 0
appendM(xs[0], 1l) => Y4 at 0
appendM(z, 1) => Y1 at 8 z
appendM([], 1) => Y2 at 8
# No place.
appendM([1l], 1l) => Y4 at 0
appendM((xs), 1l) => Y4 at 0
appendM((g)[0], 1) => Y4 at 0
appendM(b ? xs : xs, 1l) => Y4 at 0
# A place that may not be changed.
appendM(ys, 1l) => Y3 at 8
appendM(x, 'a') => Y3 at 8
appendM(ls, 1) => Y3 at 8
appendM(L.ls, 1) => Y3 at 8
appendM(ys, 1) => Y3 at 8
appendM(ys, z) => Y3 at 8
# Another number of arguments.
appendM(xs) => Y4 at 0
appendM(xs, 1l, 2l) => Y4 at 0
appendM() => Y4 at 0

# remove m gives no value
# The call is right, but gives no value.
removeM(m, 'a') => Y2 at 0
removeM(k, i) => Y2 at 0
removeM(m, s) -> map<rstring, int64> => Y2 at 0
size(removeM(m, s)) => Y2 at 5
# A key of another type.
removeM(m, 1) => Y2 at 11
removeM(k, s) => Y2 at 11
removeM(k, (n)) => Y2 at 12
removeM(m, z) => Y1 at 11 z
# No map.
removeM(xs, 1l) => Y4 at 0
removeM(s, 'a') => Y4 at 0
removeM(m[s], s) => Y4 at 0
removeM(z, 1) => Y1 at 8 z
# No place, or one that may not be changed.
removeM({1 : 2}, 1) => Y4 at 0
removeM((m), 'a') => Y4 at 0
removeM(ms, 'a') => Y3 at 8
removeM(ms, 1) => Y3 at 8
# Another number of arguments.
removeM(m) => Y4 at 0
removeM(m, s, s) => Y4 at 0
removeM() => Y4 at 0

# clear m gives no value
# The call is right, but gives no value.
clearM(xs) => Y2 at 0
clearM(m) => Y2 at 0
clearM(g[0]) => Y2 at 0
clearM(k[i]) => Y2 at 0
clearM(xs) -> boolean => Y2 at 0
1 + clearM(xs) => Y2 at 4
# No list and no map.
clearM(s) => Y4 at 0
clearM(t) => Y4 at 0
clearM(u) => Y4 at 0
clearM(now()) => Y4 at 0
clearM(x[0]) => Y4 at 0
clearM(key) => Y1 at 7 key
clearM([]) => Y2 at 7
# No place, or one that may not be changed.
clearM([1]) => Y4 at 0
clearM({1 : 2}) => Y4 at 0
clearM((xs)) => Y4 at 0
clearM(ys) => Y3 at 7
clearM(ms) => Y3 at 7
clearM(ls) => Y3 at 7
# Another number of arguments.
clearM() => Y4 at 0
clearM(xs, 1) => Y4 at 0
clearM(z, 1) => Y4 at 0
"#;
