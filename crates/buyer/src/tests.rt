use crate::flat::Flat;
use crate::highest::ByHighest;
use crate::picking::{pick, pick_two};
use rankings::{ByGateLeaves, ByHeight, ByUses, CutFacts, LeafFacts, Ranking, keeps_the_laws};
use std::test::Fail;

fn leaf(height: u16, uses: u16) -> LeafFacts {
    LeafFacts { height, uses }
}

fn cut(leaves: &[LeafFacts]) -> Result<CutFacts, Fail> {
    CutFacts::new(leaves).ok_or_else(|| Fail::new("a cut has one to four leaves"))
}

// Three leaves with two uses each come to 65,535, one without a use to 65,536.
#[test]
fn kinds(rt: HostRuntime) -> Result<(), Fail> {
    let three = cut(&[leaf(0, 2), leaf(0, 2), leaf(3, 2)])?;
    let one = cut(&[leaf(1, 0)])?;
    assert!(rt; ByUses.ranks_before(&three, &one));
    assert!(rt; !ByHeight.ranks_before(&three, &one));
    assert!(rt; !ByHeight.ranks_before(&one, &three));
    assert!(rt; !ByGateLeaves.ranks_before(&one, &three));
    assert!(rt; keeps_the_laws(&ByHeight) && keeps_the_laws(&ByGateLeaves));
    assert!(rt; !keeps_the_laws(&ByUses));
    Ok(())
}

#[test]
fn own_kinds(rt: HostRuntime) -> Result<(), Fail> {
    let high = cut(&[leaf(0, 0), leaf(5, 0)])?;
    let low = cut(&[leaf(2, 0), leaf(3, 0)])?;
    let inputs = cut(&[leaf(0, 0)])?;
    assert_eq!(rt; pick(&ByHighest, high, low, inputs), 2);
    assert_eq!(rt; pick(&ByHeight, low, high, high), 0);
    assert_eq!(rt; pick(&Flat, high, low, inputs), 0);
    let [first, second] = pick_two(&ByHighest, high, low, inputs);
    assert_eq!(rt; first.item, 2);
    assert_eq!(rt; second.item, 1);
    Ok(())
}

#[test]
fn too_few_and_too_many(rt: HostRuntime) {
    assert!(rt; CutFacts::new(&[]).is_none());
    assert!(rt; CutFacts::new(&[leaf(0, 0); 4]).is_some());
    assert!(rt; CutFacts::new(&[leaf(0, 0); 5]).is_none());
}
