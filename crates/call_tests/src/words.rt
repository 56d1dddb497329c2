// Quotients at the ends of words, worked out by hand.

use std::test::Fail;
use word_domain::Width;

#[test]
fn quotients(rt: HostRuntime) -> Result<(), Fail> {
    // bits, product, factor, quotient
    let table = [
        (4, 12, 4, Some(3)),
        (4, 0, 7, Some(0)),
        (4, 4, 3, None),
        (4, 15, 1, Some(15)),
        (4, 16, 1, None),
        (16, 4294836225, 65535, Some(65535)),
        (32, 18446744073709551615, 4294967297, Some(4294967295)),
    ];
    for (bits, product, factor, quotient) in table {
        let width = Width::new(bits).ok_or("a width")?;
        assert!(rt; factor > 0);
        assert_eq!(rt; width.quotient(product, factor), quotient);
    }
    Ok(())
}
