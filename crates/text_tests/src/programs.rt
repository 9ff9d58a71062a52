//! Programs and their plain acts.
use mdb_base::{Act, Key, Next, PlainAct, Program, ProgramErr, SiteId, Step, next_act};
use std::test::Fail;

const GET: Step = Step {
    site: SiteId(1),
    act: Act::Get(Key(5)),
};

const ADD: Step = Step {
    site: SiteId(2),
    act: Act::Add {
        key: Key(6),
        register: 0,
        amount: 3,
    },
};

const SET: Step = Step {
    site: SiteId(3),
    act: Act::Set(Key(7), 9),
};

#[test]
fn steps_become_plain_acts(rt: HostRuntime) -> Result<(), Fail> {
    let program = Program::new(rt.alloc(), &[GET, ADD, SET])?;
    assert_eq!(rt; program.len(), 3);
    assert_eq!(rt; *program.at(1), ADD);
    assert_eq!(rt; program.steps()[2], SET);
    let first = next_act(&program, 0, &[]);
    assert_eq!(rt;
        first,
        Some(Next {
            site: SiteId(1),
            act: PlainAct::Read(Key(5))
        })
    );
    let second = next_act(&program, 1, &[u64::MAX]);
    assert_eq!(rt;
        second,
        Some(Next {
            site: SiteId(2),
            act: PlainAct::Write(Key(6), 2)
        })
    );
    let third = next_act(&program, 2, &[7]);
    assert_eq!(rt;
        third,
        Some(Next {
            site: SiteId(3),
            act: PlainAct::Write(Key(7), 9)
        })
    );
    let end = next_act(&program, 3, &[7]);
    assert_eq!(rt; end, None);
    Ok(())
}

#[test]
fn what_is_no_program_is_refused(rt: HostRuntime) {
    assert_eq!(rt;
        Program::new(rt.alloc(), &[]).err(),
        Some(ProgramErr::Empty)
    );
    assert_eq!(rt;
        Program::new(rt.alloc(), &[SET; 33]).err(),
        Some(ProgramErr::TooMany)
    );
    assert_eq!(rt; Program::new(rt.alloc(), &[GET, ADD, SET]).err(), None);
    assert_eq!(rt;
        Program::new(rt.alloc(), &[SET, ADD, ADD]).err(),
        Some(ProgramErr::Register { step: 1 })
    );
    assert_eq!(rt; Program::new(rt.alloc(), &[SET; 32]).err(), None);
}
