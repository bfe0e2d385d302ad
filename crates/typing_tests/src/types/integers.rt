//! Each operator, call and form at each of the eight integer types.

pub(crate) const ROWS: &str = r#"
# arithmetic is at each integer type
# `int8`
1b * 2b -> int8 => int8 | (*int8 1 2)
1b / 2b -> int8 => int8 | (/int8 1 2)
1b % 2b -> int8 => int8 | (%int8 1 2)
1b + 2b -> int8 => int8 | (+int8 1 2)
1b - 2b -> int8 => int8 | (-int8 1 2)
1b & 2b -> int8 => int8 | (&int8 1 2)
1b ^ 2b -> int8 => int8 | (^int8 1 2)
1b | 2b -> int8 => int8 | (|int8 1 2)
# `int16`
1h * 2h -> int16 => int16 | (*int16 1 2)
1h / 2h -> int16 => int16 | (/int16 1 2)
1h % 2h -> int16 => int16 | (%int16 1 2)
1h + 2h -> int16 => int16 | (+int16 1 2)
1h - 2h -> int16 => int16 | (-int16 1 2)
1h & 2h -> int16 => int16 | (&int16 1 2)
1h ^ 2h -> int16 => int16 | (^int16 1 2)
1h | 2h -> int16 => int16 | (|int16 1 2)
# `int32`
1 * 2 -> int32 => int32 | (*int32 1 2)
1 / 2 -> int32 => int32 | (/int32 1 2)
1 % 2 -> int32 => int32 | (%int32 1 2)
1 + 2 -> int32 => int32 | (+int32 1 2)
1 - 2 -> int32 => int32 | (-int32 1 2)
1 & 2 -> int32 => int32 | (&int32 1 2)
1 ^ 2 -> int32 => int32 | (^int32 1 2)
1 | 2 -> int32 => int32 | (|int32 1 2)
# `int64`
1l * 2l -> int64 => int64 | (*int64 1 2)
1l / 2l -> int64 => int64 | (/int64 1 2)
1l % 2l -> int64 => int64 | (%int64 1 2)
1l + 2l -> int64 => int64 | (+int64 1 2)
1l - 2l -> int64 => int64 | (-int64 1 2)
1l & 2l -> int64 => int64 | (&int64 1 2)
1l ^ 2l -> int64 => int64 | (^int64 1 2)
1l | 2l -> int64 => int64 | (|int64 1 2)
# `uint8`
1ub * 2ub -> uint8 => uint8 | (*uint8 1 2)
1ub / 2ub -> uint8 => uint8 | (/uint8 1 2)
1ub % 2ub -> uint8 => uint8 | (%uint8 1 2)
1ub + 2ub -> uint8 => uint8 | (+uint8 1 2)
1ub - 2ub -> uint8 => uint8 | (-uint8 1 2)
1ub & 2ub -> uint8 => uint8 | (&uint8 1 2)
1ub ^ 2ub -> uint8 => uint8 | (^uint8 1 2)
1ub | 2ub -> uint8 => uint8 | (|uint8 1 2)
# `uint16`
1uh * 2uh -> uint16 => uint16 | (*uint16 1 2)
1uh / 2uh -> uint16 => uint16 | (/uint16 1 2)
1uh % 2uh -> uint16 => uint16 | (%uint16 1 2)
1uh + 2uh -> uint16 => uint16 | (+uint16 1 2)
1uh - 2uh -> uint16 => uint16 | (-uint16 1 2)
1uh & 2uh -> uint16 => uint16 | (&uint16 1 2)
1uh ^ 2uh -> uint16 => uint16 | (^uint16 1 2)
1uh | 2uh -> uint16 => uint16 | (|uint16 1 2)
# `uint32`
1u * 2u -> uint32 => uint32 | (*uint32 1 2)
1u / 2u -> uint32 => uint32 | (/uint32 1 2)
1u % 2u -> uint32 => uint32 | (%uint32 1 2)
1u + 2u -> uint32 => uint32 | (+uint32 1 2)
1u - 2u -> uint32 => uint32 | (-uint32 1 2)
1u & 2u -> uint32 => uint32 | (&uint32 1 2)
1u ^ 2u -> uint32 => uint32 | (^uint32 1 2)
1u | 2u -> uint32 => uint32 | (|uint32 1 2)
# `uint64`
1ul * 2ul -> uint64 => uint64 | (*uint64 1 2)
1ul / 2ul -> uint64 => uint64 | (/uint64 1 2)
1ul % 2ul -> uint64 => uint64 | (%uint64 1 2)
1ul + 2ul -> uint64 => uint64 | (+uint64 1 2)
1ul - 2ul -> uint64 => uint64 | (-uint64 1 2)
1ul & 2ul -> uint64 => uint64 | (&uint64 1 2)
1ul ^ 2ul -> uint64 => uint64 | (^uint64 1 2)
1ul | 2ul -> uint64 => uint64 | (|uint64 1 2)

# comparisons are at each integer type
# `int8`
1b < 2b => boolean | (< 1 2)
1b <= 2b => boolean | (<= 1 2)
1b > 2b => boolean | (> 1 2)
1b >= 2b => boolean | (>= 1 2)
1b == 2b => boolean | (== 1 2)
1b != 2b => boolean | (!= 1 2)
# `int16`
1h < 2h => boolean | (< 1 2)
1h <= 2h => boolean | (<= 1 2)
1h > 2h => boolean | (> 1 2)
1h >= 2h => boolean | (>= 1 2)
1h == 2h => boolean | (== 1 2)
1h != 2h => boolean | (!= 1 2)
# `int32`
1 < 2 => boolean | (< 1 2)
1 <= 2 => boolean | (<= 1 2)
1 > 2 => boolean | (> 1 2)
1 >= 2 => boolean | (>= 1 2)
1 == 2 => boolean | (== 1 2)
1 != 2 => boolean | (!= 1 2)
# `int64`
1l < 2l => boolean | (< 1 2)
1l <= 2l => boolean | (<= 1 2)
1l > 2l => boolean | (> 1 2)
1l >= 2l => boolean | (>= 1 2)
1l == 2l => boolean | (== 1 2)
1l != 2l => boolean | (!= 1 2)
# `uint8`
1ub < 2ub => boolean | (< 1 2)
1ub <= 2ub => boolean | (<= 1 2)
1ub > 2ub => boolean | (> 1 2)
1ub >= 2ub => boolean | (>= 1 2)
1ub == 2ub => boolean | (== 1 2)
1ub != 2ub => boolean | (!= 1 2)
# `uint16`
1uh < 2uh => boolean | (< 1 2)
1uh <= 2uh => boolean | (<= 1 2)
1uh > 2uh => boolean | (> 1 2)
1uh >= 2uh => boolean | (>= 1 2)
1uh == 2uh => boolean | (== 1 2)
1uh != 2uh => boolean | (!= 1 2)
# `uint32`
1u < 2u => boolean | (< 1 2)
1u <= 2u => boolean | (<= 1 2)
1u > 2u => boolean | (> 1 2)
1u >= 2u => boolean | (>= 1 2)
1u == 2u => boolean | (== 1 2)
1u != 2u => boolean | (!= 1 2)
# `uint64`
1ul < 2ul => boolean | (< 1 2)
1ul <= 2ul => boolean | (<= 1 2)
1ul > 2ul => boolean | (> 1 2)
1ul >= 2ul => boolean | (>= 1 2)
1ul == 2ul => boolean | (== 1 2)
1ul != 2ul => boolean | (!= 1 2)

# no operator is at two integer types
# `int8` and another type.
1b * 2h => Y2 at 5
1b / 2 => Y2 at 5
1b % 2l => Y2 at 5
1b + 2ub => Y2 at 5
1b - 2uh => Y2 at 5
1b & 2u => Y2 at 5
1b ^ 2ul => Y2 at 5
# `int16` and another type.
1h | 2b => Y2 at 5
1h < 2 => Y2 at 5
1h <= 2l => Y2 at 6
1h > 2ub => Y2 at 5
1h >= 2uh => Y2 at 6
1h == 2u => Y2 at 6
1h != 2ul => Y2 at 6
# `int32` and another type.
1 * 2b => Y2 at 4
1 / 2h => Y2 at 4
1 % 2l => Y2 at 4
1 + 2ub => Y2 at 4
1 - 2uh => Y2 at 4
1 & 2u => Y2 at 4
1 ^ 2ul => Y2 at 4
# `int64` and another type.
1l | 2b => Y2 at 5
1l < 2h => Y2 at 5
1l <= 2 => Y2 at 6
1l > 2ub => Y2 at 5
1l >= 2uh => Y2 at 6
1l == 2u => Y2 at 6
1l != 2ul => Y2 at 6
# `uint8` and another type.
1ub * 2b => Y2 at 6
1ub / 2h => Y2 at 6
1ub % 2 => Y2 at 6
1ub + 2l => Y2 at 6
1ub - 2uh => Y2 at 6
1ub & 2u => Y2 at 6
1ub ^ 2ul => Y2 at 6
# `uint16` and another type.
1uh | 2b => Y2 at 6
1uh < 2h => Y2 at 6
1uh <= 2 => Y2 at 7
1uh > 2l => Y2 at 6
1uh >= 2ub => Y2 at 7
1uh == 2u => Y2 at 7
1uh != 2ul => Y2 at 7
# `uint32` and another type.
1u * 2b => Y2 at 5
1u / 2h => Y2 at 5
1u % 2 => Y2 at 5
1u + 2l => Y2 at 5
1u - 2ub => Y2 at 5
1u & 2uh => Y2 at 5
1u ^ 2ul => Y2 at 5
# `uint64` and another type.
1ul | 2b => Y2 at 6
1ul < 2h => Y2 at 6
1ul <= 2 => Y2 at 7
1ul > 2l => Y2 at 6
1ul >= 2ub => Y2 at 7
1ul == 2uh => Y2 at 7
1ul != 2u => Y2 at 7

# casts are from each integer type to each
# From `int8`.
(int8) 1b -> int8 => int8 | (unary as-int8 1)
(int16) 1b -> int16 => int16 | (unary as-int16 1)
(int32) 1b -> int32 => int32 | (unary as-int32 1)
(int64) 1b -> int64 => int64 | (unary as-int64 1)
(uint8) 1b -> uint8 => uint8 | (unary as-uint8 1)
(uint16) 1b -> uint16 => uint16 | (unary as-uint16 1)
(uint32) 1b -> uint32 => uint32 | (unary as-uint32 1)
(uint64) 1b -> uint64 => uint64 | (unary as-uint64 1)
(rstring) 1b => rstring | (unary as-rstring 1)
# From `int16`.
(int8) 1h -> int8 => int8 | (unary as-int8 1)
(int16) 1h -> int16 => int16 | (unary as-int16 1)
(int32) 1h -> int32 => int32 | (unary as-int32 1)
(int64) 1h -> int64 => int64 | (unary as-int64 1)
(uint8) 1h -> uint8 => uint8 | (unary as-uint8 1)
(uint16) 1h -> uint16 => uint16 | (unary as-uint16 1)
(uint32) 1h -> uint32 => uint32 | (unary as-uint32 1)
(uint64) 1h -> uint64 => uint64 | (unary as-uint64 1)
(rstring) 1h => rstring | (unary as-rstring 1)
# From `int32`.
(int8) 1 -> int8 => int8 | (unary as-int8 1)
(int16) 1 -> int16 => int16 | (unary as-int16 1)
(int32) 1 -> int32 => int32 | (unary as-int32 1)
(int64) 1 -> int64 => int64 | (unary as-int64 1)
(uint8) 1 -> uint8 => uint8 | (unary as-uint8 1)
(uint16) 1 -> uint16 => uint16 | (unary as-uint16 1)
(uint32) 1 -> uint32 => uint32 | (unary as-uint32 1)
(uint64) 1 -> uint64 => uint64 | (unary as-uint64 1)
(rstring) 1 => rstring | (unary as-rstring 1)
# From `int64`.
(int8) 1l -> int8 => int8 | (unary as-int8 1)
(int16) 1l -> int16 => int16 | (unary as-int16 1)
(int32) 1l -> int32 => int32 | (unary as-int32 1)
(int64) 1l -> int64 => int64 | (unary as-int64 1)
(uint8) 1l -> uint8 => uint8 | (unary as-uint8 1)
(uint16) 1l -> uint16 => uint16 | (unary as-uint16 1)
(uint32) 1l -> uint32 => uint32 | (unary as-uint32 1)
(uint64) 1l -> uint64 => uint64 | (unary as-uint64 1)
(rstring) 1l => rstring | (unary as-rstring 1)
# From `uint8`.
(int8) 1ub -> int8 => int8 | (unary as-int8 1)
(int16) 1ub -> int16 => int16 | (unary as-int16 1)
(int32) 1ub -> int32 => int32 | (unary as-int32 1)
(int64) 1ub -> int64 => int64 | (unary as-int64 1)
(uint8) 1ub -> uint8 => uint8 | (unary as-uint8 1)
(uint16) 1ub -> uint16 => uint16 | (unary as-uint16 1)
(uint32) 1ub -> uint32 => uint32 | (unary as-uint32 1)
(uint64) 1ub -> uint64 => uint64 | (unary as-uint64 1)
(rstring) 1ub => rstring | (unary as-rstring 1)
# From `uint16`.
(int8) 1uh -> int8 => int8 | (unary as-int8 1)
(int16) 1uh -> int16 => int16 | (unary as-int16 1)
(int32) 1uh -> int32 => int32 | (unary as-int32 1)
(int64) 1uh -> int64 => int64 | (unary as-int64 1)
(uint8) 1uh -> uint8 => uint8 | (unary as-uint8 1)
(uint16) 1uh -> uint16 => uint16 | (unary as-uint16 1)
(uint32) 1uh -> uint32 => uint32 | (unary as-uint32 1)
(uint64) 1uh -> uint64 => uint64 | (unary as-uint64 1)
(rstring) 1uh => rstring | (unary as-rstring 1)
# From `uint32`.
(int8) 1u -> int8 => int8 | (unary as-int8 1)
(int16) 1u -> int16 => int16 | (unary as-int16 1)
(int32) 1u -> int32 => int32 | (unary as-int32 1)
(int64) 1u -> int64 => int64 | (unary as-int64 1)
(uint8) 1u -> uint8 => uint8 | (unary as-uint8 1)
(uint16) 1u -> uint16 => uint16 | (unary as-uint16 1)
(uint32) 1u -> uint32 => uint32 | (unary as-uint32 1)
(uint64) 1u -> uint64 => uint64 | (unary as-uint64 1)
(rstring) 1u => rstring | (unary as-rstring 1)
# From `uint64`.
(int8) 1ul -> int8 => int8 | (unary as-int8 1)
(int16) 1ul -> int16 => int16 | (unary as-int16 1)
(int32) 1ul -> int32 => int32 | (unary as-int32 1)
(int64) 1ul -> int64 => int64 | (unary as-int64 1)
(uint8) 1ul -> uint8 => uint8 | (unary as-uint8 1)
(uint16) 1ul -> uint16 => uint16 | (unary as-uint16 1)
(uint32) 1ul -> uint32 => uint32 | (unary as-uint32 1)
(uint64) 1ul -> uint64 => uint64 | (unary as-uint64 1)
(rstring) 1ul => rstring | (unary as-rstring 1)

# prefixes are at each integer type
# `int8`
-1b -> int8 => int8 | (unary -int8 1)
~1b -> int8 => int8 | (unary ~int8 1)
!1b => Y2 at 1
# `int16`
-1h -> int16 => int16 | (unary -int16 1)
~1h -> int16 => int16 | (unary ~int16 1)
!1h => Y2 at 1
# `int32`
-1 -> int32 => int32 | (unary -int32 1)
~1 -> int32 => int32 | (unary ~int32 1)
!1 => Y2 at 1
# `int64`
-1l -> int64 => int64 | (unary -int64 1)
~1l -> int64 => int64 | (unary ~int64 1)
!1l => Y2 at 1
# `uint8`
-1ub -> uint8 => uint8 | (unary -uint8 1)
~1ub -> uint8 => uint8 | (unary ~uint8 1)
!1ub => Y2 at 1
# `uint16`
-1uh -> uint16 => uint16 | (unary -uint16 1)
~1uh -> uint16 => uint16 | (unary ~uint16 1)
!1uh => Y2 at 1
# `uint32`
-1u -> uint32 => uint32 | (unary -uint32 1)
~1u -> uint32 => uint32 | (unary ~uint32 1)
!1u => Y2 at 1
# `uint64`
-1ul -> uint64 => uint64 | (unary -uint64 1)
~1ul -> uint64 => uint64 | (unary ~uint64 1)
!1ul => Y2 at 1

# calls are at each integer type
# `int8`
abs(1b) -> int8 => int8 | (abs-int8 1)
min(1b, 2b) -> int8 => int8 | (min 1 2)
max(1b, 2b) -> int8 => int8 | (max 1 2)
# `int16`
abs(1h) -> int16 => int16 | (abs-int16 1)
min(1h, 2h) -> int16 => int16 | (min 1 2)
max(1h, 2h) -> int16 => int16 | (max 1 2)
# `int32`
abs(1) -> int32 => int32 | (abs-int32 1)
min(1, 2) -> int32 => int32 | (min 1 2)
max(1, 2) -> int32 => int32 | (max 1 2)
# `int64`
abs(1l) -> int64 => int64 | (abs-int64 1)
min(1l, 2l) -> int64 => int64 | (min 1 2)
max(1l, 2l) -> int64 => int64 | (max 1 2)
# `uint8`
abs(1ub) -> uint8 => uint8 | (abs-uint8 1)
min(1ub, 2ub) -> uint8 => uint8 | (min 1 2)
max(1ub, 2ub) -> uint8 => uint8 | (max 1 2)
# `uint16`
abs(1uh) -> uint16 => uint16 | (abs-uint16 1)
min(1uh, 2uh) -> uint16 => uint16 | (min 1 2)
max(1uh, 2uh) -> uint16 => uint16 | (max 1 2)
# `uint32`
abs(1u) -> uint32 => uint32 | (abs-uint32 1)
min(1u, 2u) -> uint32 => uint32 | (min 1 2)
max(1u, 2u) -> uint32 => uint32 | (max 1 2)
# `uint64`
abs(1ul) -> uint64 => uint64 | (abs-uint64 1)
min(1ul, 2ul) -> uint64 => uint64 | (min 1 2)
max(1ul, 2ul) -> uint64 => uint64 | (max 1 2)

# indexes elements and keys are of each integer type
# `int8`
ys[1b] => int64 | (of v12 [1])
[2b] => list<int8> | (list 2)
1b in {2b : 'a'} => boolean | (in-map 1 (map 2:'a'))
# `int16`
ys[1h] => int64 | (of v12 [1])
[2h] => list<int16> | (list 2)
1h in {2h : 'a'} => boolean | (in-map 1 (map 2:'a'))
# `int32`
ys[1] => int64 | (of v12 [1])
[2] => list<int32> | (list 2)
1 in {2 : 'a'} => boolean | (in-map 1 (map 2:'a'))
# `int64`
ys[1l] => int64 | (of v12 [1])
[2l] => list<int64> | (list 2)
1l in {2l : 'a'} => boolean | (in-map 1 (map 2:'a'))
# `uint8`
ys[1ub] => int64 | (of v12 [1])
[2ub] => list<uint8> | (list 2)
1ub in {2ub : 'a'} => boolean | (in-map 1 (map 2:'a'))
# `uint16`
ys[1uh] => int64 | (of v12 [1])
[2uh] => list<uint16> | (list 2)
1uh in {2uh : 'a'} => boolean | (in-map 1 (map 2:'a'))
# `uint32`
ys[1u] => int64 | (of v12 [1])
[2u] => list<uint32> | (list 2)
1u in {2u : 'a'} => boolean | (in-map 1 (map 2:'a'))
# `uint64`
ys[1ul] => int64 | (of v12 [1])
[2ul] => list<uint64> | (list 2)
1ul in {2ul : 'a'} => boolean | (in-map 1 (map 2:'a'))
"#;
