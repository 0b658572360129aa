//! Tables and rows that most cases are over.

/// Accounts with an index of their owners; customers with names as keys; events with a key of two columns, which aren't
/// in their order, and an index of their kinds; a table without rows; items, whose names aren't null; and notes, whose
/// titles may be null and stand before bodies that may not, and whose sources may be longer than both.
pub const TABLES: &str = "\
acc|id i,owner i,amount i|0|1
cust|name t,good b|0|
event|region i,at i,kind i|10|2
void|id i,value i|0|1
item|id i,name T,note t,size i|0|
memo|title t,id i,body T,source x,size i|1|";

/// Numbered as the tables are, from 0.
pub const ROWS: &str = "\
0: 1 7 10
0: 2 8 20
0: 3 - 30
0: 5 7 -
0: 8 9 0
1: 'ann yes
1: 'bob -
1: 'eve no
2: 2 1 30
2: 5 1 -
2: 0 2 10
2: 9 2 20
2: 1 3 10
4: 1 'pen - 3
4: 2 'ink 'blue 5
5: - 1 'one 'twenty-one-bytes-long 1
5: - 2 'two - 0
5: 'old 3 'six 'twenty-one-bytes-long 2";
