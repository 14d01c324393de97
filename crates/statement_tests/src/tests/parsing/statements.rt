//! Statements of both kinds.

use super::{OK, place_in_statement};
use mr_base::{Bytes, CloneIn};
use region_sql::{ColumnType, Locality};
use std::test::Fail;

const STATEMENTS: [(&[u8], usize); 56] = [
    (b"CREATE DATABASE d", OK),
    (b"create database d", OK),
    (b"CrEaTe DaTaBaSe \"D\"", OK),
    (b"CREATE DATABASE d PRIMARY REGION r", OK),
    (
        b"CREATE DATABASE d PRIMARY REGION \"us-east\" REGIONS \"us-west\",b , c SURVIVE REGION FAILURE",
        OK,
    ),
    (
        b"CREATE DATABASE d PRIMARY REGION r SURVIVE ZONE FAILURE",
        OK,
    ),
    (b"CREATE DATABASE d REGIONS a", 17),
    (b"CREATE DATABASE d PRIMARY REGION r SURVIVE ZONE", 47),
    (
        b"CREATE DATABASE d PRIMARY REGION r SURVIVE ROW FAILURE",
        42,
    ),
    (b"CREATE DATABASE d PRIMARY REGION r REGIONS", 42),
    (
        b"CREATE DATABASE d PRIMARY REGION r SURVIVE ZONE FAILURE REGIONS a",
        55,
    ),
    (b"USE d", OK),
    (b"use \"use\"", OK),
    (b"USE", 3),
    (b"USE d;", 5),
    (b"USE use", 3),
    (b"ALTER DATABASE d SET PRIMARY REGION r", OK),
    (b"ALTER DATABASE d ADD REGION r", OK),
    (b"ALTER DATABASE d DROP REGION r", OK),
    (b"ALTER DATABASE d SURVIVE REGION FAILURE", OK),
    (b"ALTER DATABASE d PLACEMENT RESTRICTED", OK),
    (b"alter database d placement default", OK),
    (b"ALTER DATABASE d \"placement\" DEFAULT", 16),
    (b"ALTER DATABASE d PLACEMENT \"default\"", 26),
    (b"ALTER DATABASE placement PLACEMENT RESTRICTED", OK),
    (b"ALTER DATABASE d PLACEMENT x", 26),
    (b"ALTER DATABASE d ADD PRIMARY REGION r", 20),
    (b"ALTER DATABASE d", 16),
    (b"CREATE TABLE t (a INT PRIMARY KEY)", OK),
    (
        b"create table t(a int8 not null primary key,b text,c bool unique)",
        OK,
    ),
    (
        b"CREATE TABLE t (a BIGINT, b STRING NOT NULL UNIQUE, PRIMARY KEY (a,b)) LOCALITY REGIONAL BY ROW",
        OK,
    ),
    (b"CREATE TABLE t (a INT NOT NULL NOT NULL)", 30),
    (b"CREATE TABLE t (a INT PRIMARY)", 29),
    (b"CREATE TABLE t (a INT PRIMARY KEY UNIQUE)", 33),
    (b"CREATE TABLE t (a INT UNIQUE NOT NULL)", 28),
    (b"CREATE TABLE t (a FLOAT)", 17),
    (b"CREATE TABLE t ()", 16),
    (b"CREATE TABLE t (PRIMARY KEY ())", 29),
    (b"CREATE TABLE t (\"primary\" INT) LOCALITY GLOBAL", OK),
    (
        b"CREATE TABLE t (a INT) LOCALITY REGIONAL BY TABLE IN PRIMARY REGION",
        OK,
    ),
    (
        b"CREATE TABLE t (a INT) LOCALITY REGIONAL BY TABLE IN \"primary\"",
        OK,
    ),
    (
        b"CREATE TABLE t (a INT) LOCALITY REGIONAL BY TABLE IN r x",
        54,
    ),
    (
        b"CREATE TABLE t (a INT) LOCALITY REGIONAL BY TABLE IN PRIMARY",
        60,
    ),
    (b"CREATE TABLE t (a INT) LOCALITY", 31),
    (b"CREATE TABLE count (a INT)", 12),
    (b"CREATE TABLE t (count INT)", OK),
    (b"ALTER TABLE t SET LOCALITY GLOBAL", OK),
    (b"ALTER TABLE t SET LOCALITY REGIONAL BY TABLE", 44),
    (b"ALTER TABLE t SET LOCALITY regional by table in r", OK),
    (b"ALTER TABLE t LOCALITY GLOBAL", 13),
    (b"CREATE REGION r", 6),
    (b"SELECT * FROM t", OK),
    (b"DELETE FROM t;", 13),
    (b"INSERT INTO t (a) VALUES (1)", OK),
    (b"UPDATE t SET a = 1", OK),
    (b"", 0),
];

#[test]
fn statements(rt: HostRuntime) {
    for (text, place) in STATEMENTS.iter() {
        assert_eq!(rt; place_in_statement(rt.alloc(), text), *place);
    }
}

#[test]
fn localities_and_types_are_copied(rt: HostRuntime) -> Result<(), Fail> {
    let alloc = rt.alloc();
    let region = Bytes::from_slice(alloc, b"r")?;
    let locality = Locality::InRegion { region };
    assert!(rt; locality.clone_in(alloc).is_ok());
    assert!(rt; ColumnType::Bool.clone_in(alloc).is_ok());
    Ok(())
}
