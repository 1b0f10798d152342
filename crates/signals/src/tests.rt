use crate::kinds::Patterns;
use crate::rail::RailPair;
use crate::signal::Signal;

#[test]
fn ill_matched_rails_come_out_matched(rt: HostRuntime) {
    let odd = RailPair {
        plain: 6,
        inverse: 6,
    };
    let even = RailPair {
        plain: 3,
        inverse: 0,
    };
    let both = RailPair {
        plain: 2,
        inverse: !2,
    };
    let flipped = RailPair {
        plain: !6,
        inverse: 6,
    };
    assert_eq!(rt; odd.and(even), both);
    assert_eq!(rt; odd.complement(), flipped);
}

#[test]
fn patterns_go_lane_by_lane(rt: HostRuntime) {
    let x = Patterns { word: 0xAAAA };
    let y = Patterns { word: 0xCCCC };
    assert_eq!(rt; x.and(y.complement()), Patterns { word: 0x2222 });
}
