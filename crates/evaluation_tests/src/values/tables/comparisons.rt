//! Comparisons, `in`, texts and logic.

pub(crate) const ROWS: &str = r#"
# integers are ordered by number
1 < 2 => true
2 < 1 => false
2 < 2 => false
2 <= 2 => true
3 <= 2 => false
3 > 2 => true
2 > 2 => false
2 >= 2 => true
2 >= 3 => false
# By number, with its sign.
-1 < 0 => true
-2 < -1 => true
-10 > -9 => false
10 > 9 => true
least8 < 127b => true
127b < least8 => false
least16 >= 32767h => false
least32 <= least32 => true
least64 < 9223372036854775807l => true
least64 < -9223372036854775807l => true
128ub > 127ub => true
65535uh < 0uh => false
2147483648u > 2147483647u => true
18446744073709551615ul > 0ul => true
9223372036854775808ul < 9223372036854775807ul => false
# Of values.
price > 10l => true
rank >= 10ub => false
xs[0] < xs[1] => true
size(xs) > size(none) => true
xs[0] + xs[1] > xs[2] => false
xs[0] + xs[1] >= xs[2] => true

# bounds of each type are compared
# `int8`
least8 < 127b => true
127b <= least8 => false
127b > least8 => true
least8 >= 127b => false
least8 == least8 => true
least8 == 127b => false
127b != least8 => true
127b != 127b => false
# `int16`
least16 < 32767h => true
32767h <= least16 => false
32767h > least16 => true
least16 >= 32767h => false
least16 == least16 => true
least16 == 32767h => false
32767h != least16 => true
32767h != 32767h => false
# `int32`
least32 < 2147483647 => true
2147483647 <= least32 => false
2147483647 > least32 => true
least32 >= 2147483647 => false
least32 == least32 => true
least32 == 2147483647 => false
2147483647 != least32 => true
2147483647 != 2147483647 => false
# `int64`
least64 < 9223372036854775807l => true
9223372036854775807l <= least64 => false
9223372036854775807l > least64 => true
least64 >= 9223372036854775807l => false
least64 == least64 => true
least64 == 9223372036854775807l => false
9223372036854775807l != least64 => true
9223372036854775807l != 9223372036854775807l => false
# `uint8`
0ub < 255ub => true
255ub <= 0ub => false
255ub > 0ub => true
0ub >= 255ub => false
0ub == 0ub => true
0ub == 255ub => false
255ub != 0ub => true
255ub != 255ub => false
# `uint16`
0uh < 65535uh => true
65535uh <= 0uh => false
65535uh > 0uh => true
0uh >= 65535uh => false
0uh == 0uh => true
0uh == 65535uh => false
65535uh != 0uh => true
65535uh != 65535uh => false
# `uint32`
0u < 4294967295u => true
4294967295u <= 0u => false
4294967295u > 0u => true
0u >= 4294967295u => false
0u == 0u => true
0u == 4294967295u => false
4294967295u != 0u => true
4294967295u != 4294967295u => false
# `uint64`
0ul < 18446744073709551615ul => true
18446744073709551615ul <= 0ul => false
18446744073709551615ul > 0ul => true
0ul >= 18446744073709551615ul => false
0ul == 0ul => true
0ul == 18446744073709551615ul => false
18446744073709551615ul != 0ul => true
18446744073709551615ul != 18446744073709551615ul => false

# values of one type are equal or not
# Integers and booleans.
1 == 1 => true
1 == -1 => false
1 != -1 => true
zero == 0 => true
-0 == 0 => true
least8 == -least8 => true
255ub == 255ub => true
true == true => true
yes == no => false
yes != no => true
false == no => true
1 == 1 == true => true
1 == 2 == false => true
1 < 2 == 3 < 4 => true
# Lists.
xs == [10, 20, 30] => true
xs != [10, 20, 30] => false
xs == [10, 20] => false
xs == [10, 20, 30, 40] => false
xs == [30, 20, 10] => false
xs != none => true
none == [] => true
[none] == [[]] => true
g == [[1, 2], [], [3]] => true
g == [[1, 2], [3], []] => false
[1, 2] == [2, 1] => false
['a'] == ['a'] => true
# Maps, whatever the order of their text.
m == {'a' : 1l, 'b' : 2l} => true
m == {'b' : 2l, 'a' : 1l} => true
m == {'a' : 1l} => false
m == {'a' : 2l, 'b' : 1l} => false
m == {'a' : 1l, 'c' : 2l} => false
m != bare => true
bare == {} => true
{1 : 2, 3 : 4} == {3 : 4, 1 : 2} => true
{1 : 2, 1 : 3} == {1 : 3} => true
{1 : 3, 1 : 2} == {1 : 3} => false
k != {1 : ['p', 'q'], 2 : []} => false
ms[0] == {'a' : 1l} => true
# Tuples.
t == {a = 5l, d = {b = 'in', c = true}} => true
t == {d = {c = true, b = 'in'}, a = 5l} => true
t == {a = 5l, d = {b = 'in', c = false}} => false
t == {a = 6l, d = {b = 'in', c = true}} => false
t.d != R.d => true
t.d == {b = 'in', c = yes} => true
{a = 1, b = 2} == {a = 1, b = 2} => true
{a = 1, b = 2} == {b = 2, a = 1} => true
{a = 1, b = 2} == {b = 1, a = 2} => false
L == L => true
L != {key = 'IBM', price = 20l, qty = 300l, ls = [1], s = 'left'} => true

# in asks for elements and keys
# In lists.
20 in xs => true
10 in xs => true
30 in xs => true
40 in xs => false
-10 in xs => false
0 in none => false
1 in [1] => true
1 in [2, 3] => false
1 in [1, 1] => true
'a' in ['b', 'a'] => true
'a' in ['ab', 'A'] => false
true in [1 == 2, no] => false
none in g => true
[3] in g => true
[1] in g => false
[2, 1] in g => false
t.d in [R.d, t.d] => true
t.d in [R.d] => false
bare in ms => true
{'a' : 1l} in ms => true
'q' in k[1] => true
'q' in k[2] => false
2 in L.ls => true
# At the bounds of each integer type.
least8 in [127b, least8] => true
127b in [least8] => false
least16 in [32767h, least16] => true
32767h in [least16] => false
least32 in [2147483647, least32] => true
2147483647 in [least32] => false
least64 in [9223372036854775807l, least64] => true
9223372036854775807l in [least64] => false
255ub in [0ub, 255ub] => true
0ub in [255ub] => false
65535uh in [0uh, 65535uh] => true
0uh in [65535uh] => false
4294967295u in [0u, 4294967295u] => true
0u in [4294967295u] => false
18446744073709551615ul in [0ul, 18446744073709551615ul] => true
0ul in [18446744073709551615ul] => false
# In maps, among the keys.
'a' in m => true
'z' in m => false
'' in m => false
'a' in bare => false
1 in k => true
3 in k => false
1 in {2 : 1} => false
2 in {1 : 0, 2 : 0, 3 : 0} => true
[1] in {[1] : 'a'} => true
least8 in {127b : 1, least8 : 2} => true
most64 in {0ul : 1, most64 : 2} => true
most64 in {0ul : 1} => false
yes in {true : 1} => true
no in {true : 1} => false
# Before `==`, and behind sums.
20 in xs == true => true
10 + 10 in xs => true
!(40 in xs) => true

# plus puts texts together
s => 'spl'
'ab' => 'ab'
"ab" => 'ab'
"it's" => 'it's'
'' => ''
'a' + 'b' => 'ab'
s + '!' => 'spl!'
s + s => 'splspl'
s + blank => 'spl'
blank + s => 'spl'
blank + '' => ''
'a' + 'b' + 'c' => 'abc'
'a' + ('b' + 'c') => 'abc'
L.key + R.key => 'IBMrank'
k[1][0] + k[1][1] => 'pq'
'a\tb' => 'a␉b'
'\'' + '\\' => ''\'
# Each byte is shown as the character of its number.
'é' => 'Ã©'
'é' + 'a' => 'Ã©a'

# texts are ordered by bytes
# Byte by byte.
'a' < 'b' => true
'b' < 'a' => false
'a' < 'a' => false
'a' <= 'a' => true
'b' <= 'a' => false
'b' > 'a' => true
'a' > 'a' => false
'a' >= 'a' => true
'a' >= 'b' => false
'az' < 'ba' => true
'ab' < 'ac' => true
# Capitals come first, and digits before them.
'Z' < 'a' => true
'a' < 'Z' => false
'9' < 'A' => true
'10' < '9' => true
# A front is less than the whole.
'a' < 'ab' => true
'ab' < 'a' => false
'ab' >= 'a' => true
'b' < 'ab' => false
'' < 'a' => true
'' < '' => false
'' <= '' => true
'a' <= '' => false
# Bytes above 127 come last.
'é' > 'z' => true
'é' < 'zz' => false
'e' < 'é' => true
'é' < 'ê' => true
'é' >= '~' => true
# Control characters come before blanks.
'\n' < ' ' => true
'\t' < '\n' => true
# Of values.
s > 'spk' => true
L.key < R.key => true
s + 'a' < s + 'b' => true

# texts are equal by bytes
s == 'spl' => true
s != 'spl' => false
s == 'Spl' => false
s == 'sp' => false
'spl ' == s => false
'' == blank => true
s != blank => true
'a' == "a" => true
'\'' == "'" => true
'\"' == '"' => true
'é' == 'é' => true
'é' == 'e' => false
'a' + 'b' == 'ab' => true

# logic passes over what it does not need
# Both operands.
yes && yes => true
yes && no => false
no && yes => false
no && no => false
yes || yes => true
yes || no => true
no || yes => true
no || no => false
!yes => false
!no => true
!!no => false
# `!` before `&&`, and that before `||`.
!no && no => false
!(no && no) => true
yes || no && no => true
(yes || no) && no => false
no && no || yes => true
no && (no || yes) => false
# The right one only where it counts.
false && 1 / zero == 1 => false
true || 1 / zero == 1 => true
no && xs[9] == 1 => false
yes || m['z'] == 1l => true
yes && 1 / zero == 1 => DivZero
no || 1 / zero == 1 => DivZero
yes && xs[9] == 1 => Index
no || m['z'] == 1l => NoKey
yes && no && 1 / zero == 1 => false
no || yes || 1 / zero == 1 => true
no && 1 / zero == 1 || yes => true
yes || 1 / zero == 1 && no => true
no && (1 / zero == 1 || yes) => false
size(none) > 0 && none[0] == 1 => false
size(none) == 0 || none[0] == 1 => true
has(m, 'z') && m['z'] == 1l => false
zero != 0 && 10 / zero > 1 => false
# The left one always.
1 / zero == 1 && no => DivZero
1 / zero == 1 || yes => DivZero
!(1 / zero == 1) => DivZero
# Other operators evaluate both.
no == (1 / zero == 1) => DivZero
zero * (1 / zero) => DivZero
0 & 1 / zero => DivZero

# a conditional evaluates one branch
yes ? 1 : 2 => 1
no ? 1 : 2 => 2
1 < 2 ? 'a' : 'b' => 'a'
1 > 2 ? 'a' : 'b' => 'b'
yes ? xs : none => [10, 20, 30]
no ? xs : none => []
yes ? t.d : R.d => <'in', true>
# One branch alone.
yes ? 1 : 1 / zero => 1
no ? 1 / zero : 2 => 2
yes ? 1 / zero : 2 => DivZero
no ? 1 : 1 / zero => DivZero
zero == 0 ? 0 : 10 / zero => 0
1 / zero == 1 ? 1 : 2 => DivZero
xs[9] == 1 ? 1 / zero : 2 => Index
has(m, 'z') ? m['z'] : -1l => -1
# To the right.
no ? 1 : yes ? 2 : 3 => 2
no ? 1 : no ? 2 : 3 => 3
yes ? no ? 1 : 2 : 3 => 2
yes ? 1 : no ? 1 / zero : 3 => 1
yes ? yes ? 1 : 1 / zero : 1 / zero => 1
# Loosest of all.
no ? 1 : 2 + 3 => 5
(no ? 1 : 2) + 3 => 5
yes ? 1 : 2 + 3 => 1
(yes ? 1 : 2) + 3 => 4
no || yes ? 1 : 2 => 1
[yes ? 1 : 2, no ? 1 : 2] => [1, 2]
{yes ? 1 : 2 : no ? 3 : 4} => {1: 4}
"#;
