//! What is drawn for each transaction.

ghost use Rattle.std.specs.Prelude.{◌≡◌, ◌<◌, ◌==◌};
ghost use Rattle.workload.specs.Draws.{after, pick, drawn, behind, seeded, statement_for};

use crate::transactions::{Statement, Transaction};
use mr_base::NodeId;
use rand_core::SeedableRng;
use rand_core::utils::NextWord;
use rand_pcg::Lcg64Xsh32;

/// The generator of this seed.
#[tactic(auto, unfolding(crate::specs::Draws::seeded))]
pub(crate) fn seeded(seed: u64) -> Lcg64Xsh32
    ensures { result ≡ seeded seed }
{
    Lcg64Xsh32::seed_from_u64(seed)
}

/// The next word modulo `count`.
#[tactic(auto, unfolding(crate::specs::Draws::word, crate::specs::Draws::after))]
fn pick(words: &mut Lcg64Xsh32, count: u32) -> u32
    requires { 0 < count }
    ensures picked { result ≡ pick count words.old }
    ensures moved { words.new ≡ after words.old }
{
    words.next_word() % count
}

/// The statement of this kind, below 8, and this key, in the transaction of this number.
fn statement_for(kind: u32, key: u32, number: u32) -> Statement
    ensures { result ≡ statement_for kind key number }
{
    match kind {
        0 | 1 | 2 => Statement::InsertUser { key, value: number },
        3 | 4 => Statement::UpdateUser { key },
        5 => Statement::SelectUser { key },
        6 => Statement::DeleteUser { key },
        _ if key < 100 => Statement::InsertPromo {
            key,
            percent: number,
        },
        _ => Statement::CountPromo,
    }
}

/// Draws the transaction of this number.
pub(crate) fn draw(words: &mut Lcg64Xsh32, number: u32) -> Transaction
    ensures drawn { result ≡ drawn number words.old }
    ensures moved { words.new ≡ behind words.old }
{
    let gateway = NodeId(1 + pick(words, 9));
    let kind = pick(words, 8);
    let key = pick(words, 1000);
    let drains = pick(words, 2) == 0;
    Transaction {
        number,
        gateway,
        statement: statement_for(kind, key, number),
        drains,
    }
}
