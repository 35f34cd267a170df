use crate::further::{Gaps, Nothing};
use kinds::kind::Kind;
use kinds::marks::M;
use kinds::rank::R;
use kinds::yes_no::Y;

#[test]
fn joins_of_the_delivered_kinds(rt: HostRuntime) {
    assert_eq!(rt; Y::join(0, 1), 1);
    assert_eq!(rt; Y::join(1, 7), 1, "7 counts as none");
    assert_eq!(rt; Y::clean(2), 0);
    assert_eq!(rt; R::join(3, 7), 7);
    assert_eq!(rt; R::join(255, 0), 255);
    assert_eq!(rt; M::join(1, 2), 3);
    assert_eq!(rt; M::join(5, 4), 5);
    assert!(rt; !Y::admits(2) && Y::admits(1) && R::admits(255) && M::admits(255));
}

#[test]
fn joins_of_further_kinds(rt: HostRuntime) {
    assert_eq!(rt; Nothing::join(0, 9), 0);
    assert_eq!(rt; Gaps::join(2, 7), 7);
    assert_eq!(rt; Gaps::join(2, 5), 2, "5 counts as none");
    assert_eq!(rt; Gaps::none(), 0);
}
