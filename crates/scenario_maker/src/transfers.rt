//! The programs of made transactions: each takes an amount from one row and puts it into another.
ghost use Rattle.std.specs.Prelude.{◌≡◌, ◌<◌, ◌≤◌, IfOk, OnOk, cond};
ghost use Rattle.scenario_maker.specs.Draws.{so_far};
ghost use Rattle.scenario_maker.specs.Made.{made_global, made_local, made_transaction, is_global, transfer as transfer_steps};

use crate::draws::Draws;
use fed_rules::TxLine;
use mdb_base::{Act, Key, Memory, Program, ProgramErr, SiteId, Step, Tx};
use std::alloc::Global;

/// The program that takes an amount, 1 or more, from one row and puts it into another, modulo 2^64.
fn transfer(
    alloc: Global,
    from: SiteId,
    key: u8,
    to: SiteId,
    other: u8,
    amount: u8,
) -> Result<Program, Memory>
    requires { 0 < amount }
    ensures { IfOk result (λ program. program ≡ transfer_steps from.0 key to.0 other amount) }
{
    let (key, other) = (Key(u16::from(key)), Key(u16::from(other)));
    let amount = u64::from(amount);
    let steps = [
        Step {
            site: from,
            act: Act::Get(key),
        },
        Step {
            site: from,
            act: Act::Add {
                key,
                register: 0,
                amount: u64::MAX - amount + 1,
            },
        },
        Step {
            site: to,
            act: Act::Get(other),
        },
        Step {
            site: to,
            act: Act::Add {
                key: other,
                register: 1,
                amount,
            },
        },
    ];
    match Program::new(alloc, &steps) {
        Ok(program) => Ok(program),
        Err(ProgramErr::Memory) => Err(Memory),
        Err(ProgramErr::Empty) => unreachable!(),
        Err(ProgramErr::TooMany) => unreachable!(),
        Err(ProgramErr::Register { .. }) => unreachable!(),
    }
}

/// A transfer between two of two or more sites.
fn draw_global(alloc: Global, draws: &mut Draws, sites: u8, tx: Tx) -> Result<TxLine, Memory>
    requires some { 2 ≤ sites }
    requires few { sites ≤ 8 }
    ensures line { IfOk result (λ line. line ≡ made_global sites tx.0 draws.old.last) }
    ensures last { OnOk result (draws.new.last ≡ so_far 5 draws.old.last) }
{
    let from = 1 + draws.draw(sites);
    let to = 1 + (from + draws.draw(sites - 1)) % sites;
    let key = draws.draw(10);
    let other = draws.draw(10);
    let amount = 1 + draws.draw(9);
    let program = transfer(alloc, SiteId(from), key, SiteId(to), other, amount)?;
    Ok(TxLine {
        tx,
        home: None,
        program,
    })
}

/// A transfer between two rows of one site.
fn draw_local(alloc: Global, draws: &mut Draws, sites: u8, tx: Tx) -> Result<TxLine, Memory>
    requires some { 1 ≤ sites }
    requires few { sites ≤ 8 }
    ensures line { IfOk result (λ line. line ≡ made_local sites tx.0 draws.old.last) }
    ensures last { OnOk result (draws.new.last ≡ so_far 4 draws.old.last) }
{
    let home = SiteId(1 + draws.draw(sites));
    let key = draws.draw(10);
    let other = (key + 1 + draws.draw(9)) % 10;
    let amount = 1 + draws.draw(9);
    let program = transfer(alloc, home, key, home, other, amount)?;
    Ok(TxLine {
        tx,
        home: Some(home),
        program,
    })
}

/// The transaction of this number: every second one is global where there are two sites or more.
pub(crate) fn draw_transaction(
    alloc: Global,
    draws: &mut Draws,
    sites: u8,
    number: u32,
) -> Result<TxLine, Memory>
    requires some { 1 ≤ sites }
    requires few { sites ≤ 8 }
    ensures line { IfOk result (λ line. line ≡ made_transaction sites number draws.old.last) }
    ensures last { OnOk result (draws.new.last ≡ so_far (cond (is_global sites number) 5 4) draws.old.last) }
{
    if 2 <= sites && number % 2 == 0 {
        draw_global(alloc, draws, sites, Tx(number))
    } else {
        draw_local(alloc, draws, sites, Tx(number))
    }
}
