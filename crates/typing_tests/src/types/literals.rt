//! Numbers, texts, booleans, lists, maps and tuples, and the types that their places want.

pub(crate) const ROWS: &str = r#"
# a number has the type of its suffix
# Numbers.
5b => int8 | 5
5sb => int8 | 5
5h => int16 | 5
5 => int32 | 5
5s => int32 | 5
5w => int32 | 5
5l => int64 | 5
5ub => uint8 | 5
5uh => uint16 | 5
5u => uint32 | 5
5uw => uint32 | 5
5ul => uint64 | 5
0 => int32 | 0
007 => int32 | 7
127b => int8 | 127
255ub => uint8 | 255
65535uh => uint16 | 65535
2147483647 => int32 | 2147483647
9223372036854775807l => int64 | 9223372036854775807
18446744073709551615ul => uint64 | 18446744073709551615
5l -> int64 => int64 | 5
(5ub) -> uint8 => uint8 | 5
5 -> int64 => Y2 at 0
5 -> uint32 => Y2 at 0
5 -> rstring => Y2 at 0
(5) -> int64 => Y2 at 1
# Texts.
'ab' => rstring | 'ab'
"ab" => rstring | 'ab'
'' => rstring | ''
'a b' -> rstring => rstring | 'a b'
'a' -> int32 => Y2 at 0
'a' -> boolean => Y2 at 0
'a' -> list<rstring> => Y2 at 0
# Booleans.
true => boolean | true
false => boolean | false
true -> boolean => boolean | true
true -> rstring => Y2 at 0
false -> int8 => Y2 at 0
((true)) -> int32 => Y2 at 2

# elements have one type
# Lists where no type is wanted: the first element says it.
[1, 2] => list<int32> | (list 1 2)
[1l] => list<int64> | (list 1)
[i, 2] => list<int32> | (list v1 2)
[xs, ys] => list<list<int64>> | (list v6 v12)
[[1], []] => list<list<int32>> | (list (list 1) (list))
[t.d, {c = b, b = s}] => list<tuple<rstring b, boolean c>> | (list (of v10 .1) (tuple 1=v4 0=v5))
[] => Y2 at 0
[[]] => Y2 at 1
[[], [1]] => Y2 at 1
[1, 'a'] => Y2 at 4
[1, 2l] => Y2 at 4
[1, (2l)] => Y2 at 5
['a', s, price] => Y2 at 9
[xs, x] => Y2 at 5
[z, 'a'] => Y1 at 1 z
# Lists where one is wanted.
[] -> list<int64> => list<int64> | (list)
[n, 2l] -> list<int64> => list<int64> | (list v2 2)
[[], [1]] -> list<list<int32>> => list<list<int32>> | (list (list) (list 1))
[{}, {'a' : 1l}] -> list<map<rstring, int64>> => list<map<rstring, int64>> | (list (map) (map 'a':1))
[{c = b, b = s}] -> list<tuple<rstring b, boolean c>> => list<tuple<rstring b, boolean c>> | (list (tuple 1=v4 0=v5))
[1] -> list<int64> => Y2 at 1
[1l, 2] -> list<int64> => Y2 at 5
[(1)] -> list<int64> => Y2 at 2
[1] -> list<list<int32>> => Y2 at 1
[[1l]] -> list<list<int32>> => Y2 at 2
[{b = s}] -> list<tuple<rstring b, boolean c>> => Y2 at 1
# Lists where another type is wanted.
[1] -> int32 => Y2 at 0
[] -> rstring => Y2 at 0
[] -> map<rstring, int64> => Y2 at 0
[1] -> tuple<rstring b, boolean c> => Y2 at 0
[z] -> int32 => Y2 at 0

# keys and values have one type each
# Maps where no type is wanted: the first pair says it.
{'a' : 1} => map<rstring, int32> | (map 'a':1)
{1 : 'a', 1 : 'b'} => map<int32, rstring> | (map 1:'a' 1:'b')
{i : xs, 2 : []} => map<int32, list<int64>> | (map v1:v6 2:(list))
{[1] : 2, [] : 3} => map<list<int32>, int32> | (map (list 1):2 (list):3)
{i + 1 : n} => map<int32, int64> | (map (+int32 v1 1):v2)
{} => Y2 at 0
{1 : 'a', 'b' : 'c'} => Y2 at 10
{1 : 'a', 2 : 3} => Y2 at 14
{1 : [], 2 : ['a']} => Y2 at 5
{[] : 1} => Y2 at 1
{1 : ({})} => Y2 at 6
{z : 1} => Y1 at 1 z
{1 : z} => Y1 at 5 z
# Maps where one is wanted.
{} -> map<rstring, int64> => map<rstring, int64> | (map)
{'a' : 1l, s : n} -> map<rstring, int64> => map<rstring, int64> | (map 'a':1 v5:v2)
{1 : []} -> map<int32, list<rstring>> => map<int32, list<rstring>> | (map 1:(list))
{1 : 1l} -> map<rstring, int64> => Y2 at 1
{'a' : 1} -> map<rstring, int64> => Y2 at 7
{'a' : 1l, 2 : 2l} -> map<rstring, int64> => Y2 at 11
{'a' : 1l, 'b' : 2} -> map<rstring, int64> => Y2 at 17
{1 : [2]} -> map<int32, list<rstring>> => Y2 at 6
# Maps where another type is wanted.
{} -> list<int64> => Y2 at 0
{} -> tuple<rstring b, boolean c> => Y2 at 0
{1 : 2} -> int32 => Y2 at 0
{z : 2} -> boolean => Y2 at 0

# fields are the attributes
# Tuples where no type is wanted: their own order.
{a = 1, b = 'x'} => tuple<int32 a, rstring b> | (tuple 0=1 1='x')
{b = 'x', a = 1} => tuple<rstring b, int32 a> | (tuple 0='x' 1=1)
{a = {b = true}} => tuple<tuple<boolean b> a> | (tuple 0=(tuple 0=true))
{a = i, i = n} => tuple<int32 a, int64 i> | (tuple 0=v1 1=v2)
{a = 1, a = 2} => Y2 at 0
{a = z, b = 1, a = 2} => Y2 at 0
{a = []} => Y2 at 5
{a = 1, b = {}} => Y2 at 12
{a = z} => Y1 at 5 z
# Tuples where one is wanted: each attribute once, in any order.
{b = 'x', c = true} -> tuple<rstring b, boolean c> => tuple<rstring b, boolean c> | (tuple 0='x' 1=true)
{c = true, b = 'x'} -> tuple<rstring b, boolean c> => tuple<rstring b, boolean c> | (tuple 1=true 0='x')
{a = 1l, d = {c = b, b = s}} -> tuple<int64 a, tuple<rstring b, boolean c> d> => tuple<int64 a, tuple<rstring b, boolean c> d> | (tuple 0=1 1=(tuple 1=v4 0=v5))
{d = {b = s, c = b}, a = n} -> tuple<int64 a, tuple<rstring b, boolean c> d> => tuple<int64 a, tuple<rstring b, boolean c> d> | (tuple 1=(tuple 0=v5 1=v4) 0=v2)
{d = d, a = price} -> tuple<int64 a, tuple<rstring b, boolean c> d> => tuple<int64 a, tuple<rstring b, boolean c> d> | (tuple 1=a1.2 0=a0.1)
{b = 'x'} -> tuple<rstring b, boolean c> => Y2 at 0
{c = b} -> tuple<rstring b, boolean c> => Y2 at 0
{b = 'x', c = true, e = 1} -> tuple<rstring b, boolean c> => Y2 at 0
{b = 'x', e = true} -> tuple<rstring b, boolean c> => Y2 at 0
{b = 'x', b = 'y'} -> tuple<rstring b, boolean c> => Y2 at 0
{b = z} -> tuple<rstring b, boolean c> => Y2 at 0
{e = z, c = b} -> tuple<rstring b, boolean c> => Y2 at 0
{b = 1, c = true} -> tuple<rstring b, boolean c> => Y2 at 5
{c = 1, b = 2} -> tuple<rstring b, boolean c> => Y2 at 5
{c = b, b = (2)} -> tuple<rstring b, boolean c> => Y2 at 13
{b = z, c = y} -> tuple<rstring b, boolean c> => Y1 at 5 z
{a = 1, d = t.d} -> tuple<int64 a, tuple<rstring b, boolean c> d> => Y2 at 5
{a = 1l, d = {b = s}} -> tuple<int64 a, tuple<rstring b, boolean c> d> => Y2 at 13
{a = 1l, d = {b = s, c = s}} -> tuple<int64 a, tuple<rstring b, boolean c> d> => Y2 at 25
# Tuples where another type is wanted.
{a = 1} -> int32 => Y2 at 0
{a = 1} -> map<rstring, int64> => Y2 at 0
{a = z} -> list<int64> => Y2 at 0

# a wanted type goes inwards
# Through parentheses.
([]) -> list<int64> => list<int64> | (list)
(({})) -> map<rstring, int64> => map<rstring, int64> | (map)
({c = b, b = s}) -> tuple<rstring b, boolean c> => tuple<rstring b, boolean c> | (tuple 1=v4 0=v5)
xs == ([]) => boolean | (== v6 (list))
([]) => Y2 at 1
([]) == xs => Y2 at 1
-([]) => Y2 at 2
# Into both branches.
b ? [] : xs -> list<int64> => list<int64> | (? v4 (list) v6)
b ? [] : [] -> list<int64> => list<int64> | (? v4 (list) (list))
(b ? ([]) : (xs)) -> list<int64> => list<int64> | (? v4 (list) v6)
b ? [] : b ? xs : [] -> list<int64> => list<int64> | (? v4 (list) (? v4 v6 (list)))
b ? {c = b, b = s} : {b = s, c = b} -> tuple<rstring b, boolean c> => tuple<rstring b, boolean c> | (? v4 (tuple 1=v4 0=v5) (tuple 0=v5 1=v4))
(b ? 1 : 2) -> int64 => Y2 at 5
b ? 1l : 2 -> int64 => Y2 at 9
b ? 1 : z -> int64 => Y2 at 4
# From the first branch to the second.
b ? xs : [] => list<int64> | (? v4 v6 (list))
b ? {c = b, b = s} : {b = s, c = b} => tuple<boolean c, rstring b> | (? v4 (tuple 0=v4 1=v5) (tuple 1=v5 0=v4))
b ? [] : xs => Y2 at 4
b ? xs : [1] => Y2 at 10
# Not from an operator to its left operand, nor from its result.
[] + xs => Y2 at 0
i + 1 -> int64 => Y2 at 0
(i + 1) * 2 -> int64 => Y2 at 0
"#;
