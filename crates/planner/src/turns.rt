//! One statement at work, from one span that it needs to the next.

ghost use Rattle.std.specs.Prelude.{◌≡◌, ℕ, List, [], IfOk, Some};
ghost use Rattle.region_sql.specs.TextLiterals.{TextsAreUtf8};
ghost use Rattle.region_sql.specs.declared.row_statements.RowStatement.{RowStatement};
ghost use Rattle.row_locality.specs.Plain.{Layout};
ghost use Rattle.sql_eval.specs.Execution.{Named, named_table, table_name};
ghost use Rattle.sql_eval.specs.Laws.{IsSoundSetting};
ghost use Rattle.sql_eval.specs.OwnWrites.{reads_through};
ghost use Rattle.sql_eval.specs.Reads.{served_reads};
ghost use Rattle.sql_eval.specs.Search.{gives};
ghost use Rattle.sql_eval.specs.Tables.{named};
ghost use Rattle.planner.specs.Phases.{AreKeyedRowsOf, IsAtWork, IsPhaseOf, IsSoundPhase, IsSoundScan, IsSoundSearch, MayFind, rest_of_scan, scanned_rows, terms_of};
ghost use Rattle.planner.specs.Turns.{AreSame, IsTableTurn, IsTurn};
ghost use Rattle.planner.specs.declared.phases.Phase.TheVariants as phases;
ghost use Rattle.planner.specs.declared.phases.RowScan.{RowScan};

use crate::beginnings::begin;
use crate::found_rows::found;
use crate::index_search::{SearchStep, search_on};
use crate::keyed_rows::KeyedRows;
use crate::known_spans::KnownSpans;
use crate::own_writes::OwnWrites;
use crate::phases::{Begun, Found, IndexSearch, Phase, RowScan, UniqueCheck};
use crate::row_scan::{ScanStep, scan_on};
use crate::row_writes::StatementOutcome;
use crate::setting::PlanSetting;
use crate::unique_check::{CheckStep, check_on};
use mr_base::{Ask, Memory, SqlState};
use region_sql::RowStatement;
use sql_eval::{NamedTable, named_table, table_name};
use std::alloc::Global;

/// How a statement goes on: behind a span that it needs, with a fault, or with what it comes to.
#[derive(Drop)]
pub(crate) enum Turn {
    Asks(Ask, Phase),
    Faulty(SqlState),
    Ends(StatementOutcome),
}

/// Goes on with a statement as far as what is known allows.
pub(crate) fn go_on(
    alloc: Global,
    setting: &PlanSetting,
    own: &OwnWrites,
    known: &KnownSpans,
    s: &RowStatement,
    phase: Phase,
) -> Result<Turn, Memory>
    requires sound { IsSoundSetting setting.now }
    requires texts { TextsAreUtf8 s.now }
    requires phase { IsPhaseOf setting.now.layout.catalog s.now phase }
    ensures { IfOk result (IsTurn setting.now.layout setting.now.region
        (reads_through own.now (served_reads known.now)) s.now phase) }
{
    match named_table(setting.catalog(), table_name(s)) {
        None => Ok(Turn::Faulty(SqlState::S42P01)),
        Some(n) => on_table(alloc, setting, own, known, &n, s, phase),
    }
}

/// Goes on with a statement on its table.
fn on_table(
    alloc: Global,
    setting: &PlanSetting,
    own: &OwnWrites,
    known: &KnownSpans,
    n: &NamedTable,
    s: &RowStatement,
    phase: Phase,
) -> Result<Turn, Memory>
    requires sound { IsSoundSetting setting.now }
    requires table { named_table setting.now.layout.catalog (table_name s.now) ≡ Some (named n.now) }
    requires texts { TextsAreUtf8 s.now }
    requires phase { IsSoundPhase setting.now.layout.catalog s.now phase (named n.now) }
    ensures { IfOk result (IsTableTurn setting.now.layout setting.now.region (named n.now)
        (reads_through own.now (served_reads known.now)) s.now phase) }
{
    match phase {
        Phase::Ready => match begin(alloc, setting, n, s)? {
            Begun::Faulty(code) => Ok(Turn::Faulty(code)),
            Begun::Goes(phase) => at_work(alloc, setting, own, known, n, s, phase),
        },
        phase => at_work(alloc, setting, own, known, n, s, phase),
    }
}

/// Goes on with a statement of which something was done.
fn at_work(
    alloc: Global,
    setting: &PlanSetting,
    own: &OwnWrites,
    known: &KnownSpans,
    n: &NamedTable,
    s: &RowStatement,
    phase: Phase,
) -> Result<Turn, Memory>
    requires sound { IsSoundSetting setting.now }
    requires table { named_table setting.now.layout.catalog (table_name s.now) ≡ Some (named n.now) }
    requires texts { TextsAreUtf8 s.now }
    requires at_work { IsAtWork phase }
    requires phase { IsSoundPhase setting.now.layout.catalog s.now phase (named n.now) }
    ensures { IfOk result (IsTableTurn setting.now.layout setting.now.region (named n.now)
        (reads_through own.now (served_reads known.now)) s.now phase) }
{
    match phase {
        Phase::Ready => unreachable!(),
        Phase::Searching(w) => searching(alloc, setting, own, known, n, s, w),
        Phase::Scanning(w) => scanning(alloc, setting, own, known, n, s, w),
        Phase::Checking(w) => checking(alloc, own, known, w),
    }
}

/// Goes on with a statement that searches by an index.
fn searching(
    alloc: Global,
    setting: &PlanSetting,
    own: &OwnWrites,
    known: &KnownSpans,
    n: &NamedTable,
    s: &RowStatement,
    w: IndexSearch,
) -> Result<Turn, Memory>
    requires sound { IsSoundSetting setting.now }
    requires table { named_table setting.now.layout.catalog (table_name s.now) ≡ Some (named n.now) }
    requires texts { TextsAreUtf8 s.now }
    requires finds { MayFind (named n.now) s.now }
    requires search { IsSoundSearch setting.now.layout.catalog n.now.table.now w }
    ensures { IfOk result (IsTableTurn setting.now.layout setting.now.region (named n.now)
        (reads_through own.now (served_reads known.now)) s.now (phases.Searching w)) }
{
    match search_on(alloc, own, known, n.table, w)? {
        SearchStep::Asks(ask, w) => Ok(Turn::Asks(ask, Phase::Searching(w))),
        SearchStep::Goes(w) => scanning(alloc, setting, own, known, n, s, w),
    }
}

/// Goes on with a statement that reads its rows.
fn scanning(
    alloc: Global,
    setting: &PlanSetting,
    own: &OwnWrites,
    known: &KnownSpans,
    n: &NamedTable,
    s: &RowStatement,
    w: RowScan,
) -> Result<Turn, Memory>
    requires sound { IsSoundSetting setting.now }
    requires table { named_table setting.now.layout.catalog (table_name s.now) ≡ Some (named n.now) }
    requires texts { TextsAreUtf8 s.now }
    requires finds { MayFind (named n.now) s.now }
    requires scan { IsSoundScan setting.now.layout.catalog n.now.table.now w }
    ensures { IfOk result (IsTableTurn setting.now.layout setting.now.region (named n.now)
        (reads_through own.now (served_reads known.now)) s.now (phases.Scanning w)) }
{
    match scan_on(alloc, own, known, n.table, w)? {
        ScanStep::Asks(ask, w) => Ok(Turn::Asks(ask, Phase::Scanning(w))),
        ScanStep::Ends(rows) => with_rows(alloc, setting, own, known, n, s, rows),
    }
}

/// Goes on with a statement that has read its rows.
fn with_rows(
    alloc: Global,
    setting: &PlanSetting,
    own: &OwnWrites,
    known: &KnownSpans,
    n: &NamedTable,
    s: &RowStatement,
    rows: KeyedRows,
) -> Result<Turn, Memory>
    requires sound { IsSoundSetting setting.now }
    requires table { named_table setting.now.layout.catalog (table_name s.now) ≡ Some (named n.now) }
    requires texts { TextsAreUtf8 s.now }
    requires finds { MayFind (named n.now) s.now }
    requires rows { AreKeyedRowsOf setting.now.layout.catalog n.now.table.now rows }
    ensures { IfOk result (λ turn. (w : RowScan)
        → (AreSame (reads_through own.now (served_reads known.now))
        (λ reads. rest_of_scan reads n.now.table.now (terms_of s.now) w)
        (λ reads. gives (scanned_rows n.now.table.now (terms_of s.now) rows [])))
        → IsTableTurn setting.now.layout setting.now.region (named n.now)
        (reads_through own.now (served_reads known.now)) s.now (phases.Scanning w) turn) }
{
    match found(alloc, setting, n, s, rows)? {
        Found::Faulty(code) => Ok(Turn::Faulty(code)),
        Found::Goes(w) => checking(alloc, own, known, w),
    }
}

/// Goes on with a statement whose new rows are checked.
fn checking(
    alloc: Global,
    own: &OwnWrites,
    known: &KnownSpans,
    w: UniqueCheck,
) -> Result<Turn, Memory>
    ensures { IfOk result (λ turn. (l : Layout) (gateway : List ℕ) (n : Named) (s : RowStatement)
        → IsTableTurn l gateway n (reads_through own.now (served_reads known.now)) s (phases.Checking w) turn) }
{
    match check_on(alloc, own, known, w)? {
        CheckStep::Asks(ask, w) => Ok(Turn::Asks(ask, Phase::Checking(w))),
        CheckStep::Faulty(code) => Ok(Turn::Faulty(code)),
        CheckStep::Ends(x) => Ok(Turn::Ends(x)),
    }
}
