//! Lists of statements on rows, each with the answers or the code that it must get, one after the other.

ghost use Rattle.std.specs.Prelude.{◌≡◌, ◌∷◌, [], IfOk, codes};
ghost use Rattle.descriptors.specs.Changes.{NewNamesAreUtf8};

use descriptors::{Catalog, new_names_are_utf8};
use mr_base::{
    Bytes, Datum, EvalFault, Kind, ListOf, Memory, Row, RowList, SqlState, StatementResult, Verb,
};
use region_sql::{RegionStatement, Statement, parse_statement};
use sql_eval::{Executed, execute, read_list};
use std::alloc::Global;
use std::test::Fail;

/// Lists in a cluster of the regions east, west, europe and asia, each behind its answers or its code.
/// `sql` changes the catalog, and `at` moves to a gateway in a region. `ago` reads the past, and `within`
/// the past of bounded staleness.
static LISTS: &str = "\
-- no database, then no table
42P01 <- SELECT * FROM t
sql CREATE DATABASE d
42P01 <- SELECT * FROM t
42601 <- SELECT
42601 <- SELECT * FROM t; SELEC
sql CREATE TABLE t (id INT PRIMARY KEY, v INT, s STRING UNIQUE)
-- the first rows
insert 1 <- INSERT INTO t (id, v, s) VALUES (1, 9223372036854775807, 'x')
22003 <- UPDATE t SET v = v + 1
42703 <- SELECT x FROM t
42P01 <- SELECT * FROM u
23502 <- INSERT INTO t (id, v) VALUES (2, 3)
42804 <- INSERT INTO t (id, v, s) VALUES (2, 'q', 'y')
23505 <- INSERT INTO t (id, v, s) VALUES (2, 3, 'x')
22003 <- INSERT INTO t (id, v, s) VALUES (2, 9223372036854775808, 'y')
25006 <- ago DELETE FROM t
select 1 (1) <- SELECT id FROM t WHERE v > 5
-- columns go first, from left to right
42701 <- INSERT INTO t (id, id, x) VALUES (1, 2, 3)
42703 <- INSERT INTO t (x, id, id) VALUES (1, 2, 3)
42601 <- INSERT INTO t (id, s) VALUES (1)
23502 <- INSERT INTO t (id, s) VALUES (1, 2)
42601 <- INSERT INTO t (id, s, v) VALUES ('a', 2)
42703 <- INSERT INTO t (id, crdb_region, v, s) VALUES (3, 'east', 1, 'c')
42703 <- SELECT id, x FROM t WHERE y = 1
42703 <- SELECT crdb_region FROM t
42703 <- UPDATE t SET v = w, v = 2
42701 <- UPDATE t SET v = 1, v = w
42703 <- UPDATE t SET v = 1, w = 2, v = 3
42703 <- UPDATE t SET v = 'a' WHERE w = 1
42703 <- DELETE FROM t WHERE id = 1 AND w = 2
-- then literals and values, terms last
42804 <- INSERT INTO t (id, v, s) VALUES (4, 1, 'd'), (5, TRUE, 'e')
22003 <- INSERT INTO t (id, v, s) VALUES (9223372036854775808, 'a', 'd')
42804 <- INSERT INTO t (s, v, id) VALUES (1, 9223372036854775808, 4)
22003 <- UPDATE t SET v = 9223372036854775808 WHERE id = 'a'
42804 <- UPDATE t SET v = 1 WHERE id = 'a'
42804 <- UPDATE t SET v = s
42804 <- UPDATE t SET s = v
42804 <- UPDATE t SET s = s + 1
42804 <- UPDATE t SET v = s + 1
22003 <- UPDATE t SET v = v + 9223372036854775808 WHERE id = 99
22003 <- UPDATE t SET v = v - 99999999999999999999999 WHERE s = 1
42804 <- SELECT * FROM t WHERE s = 9223372036854775808
22003 <- SELECT * FROM t WHERE v < 9223372036854775808
22003 <- SELECT * FROM t WHERE v = -9223372036854775809
select 1 (1) <- SELECT count(*) FROM t WHERE v > -9223372036854775808
42804 <- SELECT * FROM t WHERE s = TRUE
-- comparisons
insert 4 <- INSERT INTO t (id, v, s) VALUES (-3, 1, ''), (2, -9223372036854775808, 'it''s'), (7, 0, 'B'), (5, 4, 'a')
select 5 (-3, 1, '') (1, 9223372036854775807, 'x') (2, -9223372036854775808, 'it''s') (5, 4, 'a') (7, 0, 'B') <- SELECT * FROM t
select 2 (-3) (1) <- SELECT id FROM t WHERE id < 2
select 3 (-3) (1) (2) <- SELECT id FROM t WHERE id <= 2
select 2 (5) (7) <- SELECT id FROM t WHERE id > 2
select 3 (2) (5) (7) <- SELECT id FROM t WHERE id >= 2
select 4 (-3) (1) (5) (7) <- SELECT id FROM t WHERE id <> 2
select 1 (2) <- SELECT id FROM t WHERE id = 2
select 2 (-3, '') (7, 'B') <- SELECT id, s FROM t WHERE s < 'a'
select 2 ('it''s', 2, 'it''s') ('a', 5, 'a') <- SELECT s, id, s FROM t WHERE s >= 'a' AND v < 9
select 1 (0) <- SELECT count(*) FROM t WHERE id = 1 AND id = 2
select 1 (5) <- SELECT count(*) FROM t
-- changes
22003 <- UPDATE t SET v = v - 1 WHERE id = 2
update 1 <- UPDATE t SET v = v + 5, id = v WHERE id = 5
select 5 (-3, 1) (1, 9223372036854775807) (2, -9223372036854775808) (4, 9) (7, 0) <- SELECT id, v FROM t
update 5 <- UPDATE t SET id = id + 1
select 5 (-2) (2) (3) (5) (8) <- SELECT id FROM t
23505 <- UPDATE t SET s = 'same' WHERE id > 2
update 1 <- UPDATE t SET id = 6 WHERE id = 5
23505 <- UPDATE t SET id = 8, s = 'two' WHERE id = 2
update 0 <- UPDATE t SET s = 'new' WHERE id = 100
delete 2 <- DELETE FROM t WHERE v < 1
delete 0 <- DELETE FROM t WHERE id = 1 AND id = 2
select 3 (-2, 1, '') (2, 9223372036854775807, 'x') (6, 9, 'a') <- SELECT * FROM t
-- several statements see each other, and a fault undoes all
insert 1; update 1; select 1 (2); delete 1; select 1 (3) <- INSERT INTO t (id, v, s) VALUES (20, 1, 'p'); UPDATE t SET v = v + 1 WHERE id = 20; SELECT v FROM t WHERE id = 20; DELETE FROM t WHERE s = 'p'; SELECT count(*) FROM t
23505 <- INSERT INTO t (id, v, s) VALUES (21, 1, 'q'); INSERT INTO t (id, v, s) VALUES (21, 1, 'r')
23505 <- INSERT INTO t (id, v, s) VALUES (22, 1, 'u'), (23, 1, 'u')
select 0 <- SELECT id FROM t WHERE id > 19
-- swapped and shifted keys
sql CREATE TABLE k (a INT, b BOOL, c STRING, d INT UNIQUE, PRIMARY KEY (c, b))
insert 3 <- INSERT INTO k (a, b, c, d) VALUES (1, TRUE, 'x', 1), (2, FALSE, 'x', 2), (3, FALSE, 'a', 3)
select 3 (3, false, 'a', 3) (2, false, 'x', 2) (1, true, 'x', 1) <- SELECT * FROM k
select 2 (3) (2) <- SELECT a FROM k WHERE b = FALSE
select 1 (1) <- SELECT a FROM k WHERE b > FALSE
update 3 <- UPDATE k SET d = d + 1
23505 <- UPDATE k SET b = TRUE
update 1 <- UPDATE k SET c = 'z' WHERE a = 3
select 3 ('x', false, 3) ('x', true, 2) ('z', false, 4) <- SELECT c, b, d FROM k
23505 <- INSERT INTO k (a, b, c, d) VALUES (4, FALSE, 'x', 9)
23505 <- INSERT INTO k (a, b, c, d) VALUES (4, FALSE, 'y', 2)
-- a long value: 1,024 bytes with two integers
54000 <- INSERT INTO t (id, v, s) VALUES (30, 1, '<long>y')
54000 <- INSERT INTO t (id, v, s) VALUES (30, 1, '<long>'), (31, 1, '<long>y')
insert 1 <- INSERT INTO t (id, v, s) VALUES (30, 1, '<long>')
54000 <- UPDATE t SET s = '<long>y' WHERE id = 30
22003 <- UPDATE t SET s = '<long>y', v = v + 9223372036854775807 WHERE id = 30
22003 <- UPDATE t SET v = v + 9223372036854775807, s = '<long>y'
update 1 <- UPDATE t SET v = v - 1 WHERE id = 30
delete 1 <- DELETE FROM t WHERE v = 0
-- faults of lists
25006 <- ago SELECT * FROM t; DELETE FROM t
25006 <- ago SELECT * FROM u; DELETE FROM t
0A000 <- within SELECT * FROM t; SELECT * FROM t
25006 <- within SELECT * FROM t; DELETE FROM t
25006 <- within DELETE FROM t
-- a table of a database with regions
sql CREATE DATABASE e PRIMARY REGION east REGIONS west, europe
sql CREATE TABLE r (id INT PRIMARY KEY, email STRING UNIQUE) LOCALITY REGIONAL BY ROW
insert 1 <- INSERT INTO r (id, email) VALUES (1, 'a@x')
at west
insert 2 <- INSERT INTO r (id, email) VALUES (2, 'b@x'), (3, 'c@x')
at asia
insert 1 <- INSERT INTO r (id, email) VALUES (4, 'd@x')
at europe
insert 1 <- INSERT INTO r (id, email, crdb_region) VALUES (5, 'e@x', 'west')
22P02 <- INSERT INTO r (crdb_region, id, email) VALUES ('asia', 6, 'f@x')
42804 <- INSERT INTO r (crdb_region, id, email) VALUES (1, 6, 'f@x')
22P02 <- INSERT INTO r (crdb_region, id, email) VALUES ('mars', 'a', 'f@x')
23502 <- INSERT INTO r (crdb_region, email) VALUES ('west', 'f@x')
23505 <- INSERT INTO r (id, email) VALUES (6, 'a@x')
select 5 (1, 'a@x') (2, 'b@x') (3, 'c@x') (4, 'd@x') (5, 'e@x') <- SELECT * FROM r
select 5 (1, 'east') (2, 'west') (3, 'west') (4, 'east') (5, 'west') <- SELECT id, crdb_region FROM r
select 3 (2) (3) (5) <- SELECT id FROM r WHERE crdb_region = 'west'
select 3 (2) (3) (5) <- SELECT id FROM r WHERE crdb_region >= 'europe'
22P02 <- SELECT id FROM r WHERE crdb_region <> 'mars'
select 0 <- SELECT id FROM r WHERE crdb_region = 'west' AND crdb_region = 'east'
update 2 <- UPDATE r SET crdb_region = 'europe' WHERE id < 3
42804 <- UPDATE r SET crdb_region = email
update 1 <- UPDATE r SET crdb_region = crdb_region, email = crdb_region WHERE id = 5
42804 <- UPDATE r SET crdb_region = id
22P02 <- UPDATE r SET crdb_region = 'asia' WHERE id = 'x'
select 5 (1, 'a@x', 'europe') (2, 'b@x', 'europe') (3, 'c@x', 'west') (4, 'd@x', 'east') (5, 'west', 'west') <- SELECT id, email, crdb_region FROM r
delete 2 <- DELETE FROM r WHERE crdb_region = 'europe'
select 1 (3) <- SELECT count(*) FROM r
42P01 <- SELECT * FROM t
sql USE d
select 1 (3) <- SELECT count(*) FROM k
";

/// What lists run on.
#[derive(Drop)]
struct World {
    catalog: Catalog,
    tables: Vec<RowList>,
    gateway: &'static str,
}

/// A value as the program shows it.
fn push_value(alloc: Global, text: &mut String, v: &Datum) -> Result<(), Fail> {
    match v {
        Datum::Int(n) => {
            let number = format!(in alloc; "{n}")?;
            text.push_str(&number)?;
        }
        Datum::Text(bytes) => {
            text.push_str("'")?;
            for b in bytes.as_slice() {
                if *b == b'\'' {
                    text.push_str("'")?;
                }
                text.push(char::from(*b))?;
            }
            text.push_str("'")?;
        }
        Datum::Bool(true) => text.push_str("true")?,
        Datum::Bool(false) => text.push_str("false")?,
    }
    Ok(())
}

/// A row in brackets.
fn push_row(alloc: Global, text: &mut String, row: &Row) -> Result<(), Fail> {
    let mut before = " (";
    for v in row.as_slice() {
        text.push_str(before)?;
        push_value(alloc, text, v)?;
        before = ", ";
    }
    text.push_str(")")?;
    Ok(())
}

fn word(verb: Verb) -> &'static str {
    match verb {
        Verb::Insert => "insert",
        Verb::Update => "update",
        Verb::Delete => "delete",
        Verb::Select => "select",
    }
}

/// The answer of a statement.
fn push_answer(alloc: Global, text: &mut String, answer: &StatementResult) -> Result<(), Fail> {
    let verb = word(answer.verb);
    let count = answer.count;
    let head = format!(in alloc; "{verb} {count}")?;
    text.push_str(&head)?;
    for row in answer.rows.as_slice() {
        push_row(alloc, text, row)?;
    }
    Ok(())
}

/// The answers of a list.
fn answers_text(alloc: Global, answers: &[StatementResult]) -> Result<String, Fail> {
    let mut text = String::new(alloc);
    let mut before = "";
    for answer in answers {
        text.push_str(before)?;
        push_answer(alloc, &mut text, answer)?;
        before = "; ";
    }
    Ok(text)
}

/// The text of a list, with 1,001 letters where it has the word for them.
fn whole_text(alloc: Global, text: &str) -> Result<String, Fail> {
    let mut whole = String::new(alloc);
    let mut letters = 0;
    for part in text.split("<long>") {
        for _ in 0..letters {
            whole.push_str("y")?;
        }
        whole.push_str(part)?;
        letters = 1001;
    }
    Ok(whole)
}

/// The regions of the cluster.
fn four_names(alloc: Global) -> Result<ListOf<Bytes>, Memory>
    ensures { IfOk result (λ l. l ≡ codes "east" ∷ codes "west" ∷ codes "europe" ∷ codes "asia" ∷ []) }
{
    let mut regions = ListOf::new(alloc);
    regions.push(Bytes::from_slice(alloc, b"east")?)?;
    regions.push(Bytes::from_slice(alloc, b"west")?)?;
    regions.push(Bytes::from_slice(alloc, b"europe")?)?;
    regions.push(Bytes::from_slice(alloc, b"asia")?)?;
    Ok(regions)
}

/// A catalog over four regions.
fn four_regions(alloc: Global) -> Result<Catalog, Memory> {
    let regions = four_names(alloc)?;
    Catalog::new(alloc, regions.as_slice())
}

/// The statement on the catalog that a text is.
fn region_statement(alloc: Global, text: &str) -> Result<RegionStatement, Fail>
    ensures { IfOk result NewNamesAreUtf8 }
{
    new_names_are_utf8();
    match parse_statement(alloc, text.as_bytes()) {
        Ok(Statement::Region(statement)) => Ok(statement),
        Ok(_) | Err(_) => Err(Fail::from("no region statement")),
    }
}

/// Changes the catalog. A new table has no rows.
fn change(alloc: Global, world: &mut World, text: &str) -> Result<(), Fail> {
    let statement = region_statement(alloc, text)?;
    if world.catalog.apply(&statement).is_err() {
        return Err(Fail::from("a refused change"));
    }
    if world.tables.len() < world.catalog.tables().len() {
        world.tables.push(RowList::new(alloc))?;
    }
    Ok(())
}

/// What a list does on the tables as they stand.
fn run(
    alloc: Global,
    world: &World,
    kind: Kind,
    text: &str,
) -> Result<Result<Executed, SqlState>, Fail> {
    let text = whole_text(alloc, text)?;
    let list = read_list(alloc, text.as_bytes(), kind)?;
    let tables = ListOf::copy_of(alloc, &world.tables)?.into_vec();
    if tables.len() < world.catalog.tables().len() {
        return Err(Fail::from("a table without rows"));
    }
    match execute(
        alloc,
        &world.catalog,
        world.gateway.as_bytes(),
        list,
        tables,
    ) {
        Ok(executed) => Ok(Ok(executed)),
        Err(EvalFault::State(state)) => Ok(Err(state)),
        Err(EvalFault::Memory) => Err(Fail::from("want of memory")),
    }
}

/// When a list reads, and its text.
fn kind_of(text: &str) -> (Kind, &str) {
    if let Some(list) = text.strip_prefix("ago ") {
        return (Kind::Ago(1), list);
    }
    if let Some(list) = text.strip_prefix("within ") {
        return (Kind::Within { ms: 1, any: false }, list);
    }
    (Kind::Now, text)
}

/// Whether a list gets what it must.
fn is_answered(alloc: Global, world: &mut World, wanted: &str, text: &str) -> Result<bool, Fail> {
    let (kind, list) = kind_of(text);
    match run(alloc, world, kind, list)? {
        Err(state) => Ok(state.code() == wanted),
        Ok(executed) => {
            let answers = answers_text(alloc, executed.answers.as_slice())?;
            world.tables = executed.tables;
            Ok(answers.as_str() == wanted)
        }
    }
}

/// Whether a line is as it must be.
fn holds(alloc: Global, world: &mut World, line: &'static str) -> Result<bool, Fail> {
    if line.starts_with("-- ") {
        return Ok(true);
    }
    if let Some(statement) = line.strip_prefix("sql ") {
        change(alloc, world, statement)?;
        return Ok(true);
    }
    if let Some(region) = line.strip_prefix("at ") {
        world.gateway = region;
        return Ok(true);
    }
    match line.split_once(" <- ") {
        Some((wanted, text)) => is_answered(alloc, world, wanted, text),
        None => Ok(false),
    }
}

#[test]
fn each_list_gets_its_answers(rt: HostRuntime) -> Result<(), Fail> {
    let alloc = rt.alloc();
    let mut world = World {
        catalog: four_regions(alloc)?,
        tables: Vec::new(alloc),
        gateway: "east",
    };
    let mut count: u32 = 0;
    for line in LISTS.lines() {
        if !holds(alloc, &mut world, line)? {
            return Err(Fail::from(line));
        }
        count = count.saturating_add(1);
    }
    assert!(rt; count > 100);
    Ok(())
}
