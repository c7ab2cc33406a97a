use blk_base::{Block, Pbn};
use block_names::Name;
use index_advice::{Advisor, Liar, Look, Table};
use std::test::Fail;

fn name(byte: u8) -> Name {
    Name::new([byte; 16])
}

// All that is asked of an advisor: nothing is to be written, and what it answers for three names.
fn ask_all<A: Advisor>(advisor: &mut A) -> (Option<Pbn>, [Look; 3]) {
    let mut block = Block::zero();
    advisor.page(Pbn(69), None);
    advisor.page(Pbn(69), Some(&block));
    advisor.finish();
    let due = advisor.write_due(&mut block);
    let looks = [
        advisor.look(&name(1)),
        advisor.look(&name(2)),
        advisor.look(&name(3)),
    ];
    (due, looks)
}

// A liar gives its answers in turn. A table with room for two names learns the first one again, and forgets the third one.
#[test]
fn advisors_are_asked(rt: HostRuntime) -> Result<(), Fail> {
    let mut liar = Liar::new([Look::Known(Pbn(87)), Look::Read(Pbn(69))].to_vec(rt.alloc())?);
    liar.learn(&name(3), Pbn(90));
    let mut table = Table::new(rt.alloc(), 2)?;
    for (byte, at) in [(2, 87), (1, 88), (3, 89), (1, 90)] {
        table.learn(&name(byte), Pbn(at));
    }
    let asked = [ask_all(&mut liar), ask_all(&mut table)];
    let told = [Look::Known(Pbn(87)), Look::Read(Pbn(69)), Look::Nothing];
    let kept = [Look::Known(Pbn(90)), Look::Known(Pbn(87)), Look::Nothing];
    assert_eq!(rt; asked, [(None, told), (None, kept)]);
    Ok(())
}
