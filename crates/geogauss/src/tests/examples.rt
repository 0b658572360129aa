//! The scripts of the folder `examples` with their outputs, which were worked out by hand. That these are the
//! files' own texts is looked at behind the gate, by `examples/compare`; the first example is the program's stored run.

/// Two regions that insert one row in one epoch.
pub const CONTESTED: (&str, &str) = (
    "geogauss play 1
regions 2
table kv (k INT KEY, v INT)
begin
sql 0.0 INSERT INTO kv VALUES (1, 10)
sql 1.0 INSERT INTO kv VALUES (1, 20)
sql 1.1 INSERT INTO kv VALUES (2, 30)
seal 0
publish 0
seal 1
deliver 0 1
publish 0
publish 1
sql 1.2 INSERT INTO kv VALUES (2, 40)
sql 1.0 SELECT * FROM kv
sql 0.5 SELECT * FROM kv
show 1
",
    "0.0 changed 1 ticket 1.0.0
1.0 changed 1 ticket 1.1.0
1.1 changed 1 ticket 1.1.1
region 0 sealed 1 with 1
packet 0 to 1
region 0 waiting 1: have 1 of 2
region 1 sealed 1 with 2
packet 1 to 0
packet 0 new
packet 1 new
region 0 published 1 commits 2 aborts 1
region 1 published 1 commits 2 aborts 1
1.2 refused 30 Duplicate kv(2)
1.0 refused 46 Waiting 1.1.0
0.5 rows 2
(1, 10)
(2, 30)
region 1 at 1
table kv 2 rows
(1, 10)
(2, 30)
",
);

/// Packets that come in another order than they were sent.
pub const REORDERED: (&str, &str) = (
    "geogauss play 1
regions 2
table kv (k INT KEY, v INT)
begin
seal 0
seal 0
seal 1
seal 1
deliver 1
deliver 0
deliver 0 1
publish 1
publish 1
deliver 0
deliver 9
",
    "region 0 sealed 1 with 0
packet 0 to 1
region 0 sealed 2 with 0
packet 1 to 1
region 1 sealed 1 with 0
packet 2 to 0
region 1 sealed 2 with 0
packet 3 to 0
packet 1 new
packet 0 new
packet 0 known
packet 1 known
region 1 published 1 commits 0 aborts 0
region 1 published 2 commits 0 aborts 0
packet 0 known
packet 9 absent
",
);
