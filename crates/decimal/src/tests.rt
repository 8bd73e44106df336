// The limits of a finite number, run. A refusal is looked at with its place.
use crate::number::Finite;
use refusals::{Fault, Refusal};
use rounding::Sign;

#[test]
fn limits(rt: HostRuntime) {
    assert!(rt; Finite::new(Sign::Plus, 9_999_999, 90).is_ok());
    assert!(rt; Finite::new(Sign::Minus, 0, -101).is_ok());
    assert!(rt;
        matches!(
            Finite::new(Sign::Plus, 10_000_000, 91),
            Err(Fault {
                refusal: Refusal::CoefficientTooLarge,
                place: 0
            })
        )
    );
    assert!(rt;
        matches!(
            Finite::new(Sign::Plus, 1, -102),
            Err(Fault {
                refusal: Refusal::ExponentOutOfRange,
                place: 0
            })
        )
    );
}
