//! The printed form of damage.
use crate::given::given;
use hgs_files::path::StorePath;
use hgs_plan::damage::{Damage, Part, What};
use hgs_plan::print::push_damage;
use std::test::Fail;

#[test]
fn damage_is_printed(rt: HostRuntime) -> Result<(), Fail> {
    let alloc = rt.alloc();
    let table = [
        (
            Part::Revlog,
            2,
            0,
            b"store/00changelog.i: revlog 2 0".as_slice(),
        ),
        (
            Part::Journal,
            4,
            1000,
            b"store/00changelog.i: journal 4 1000",
        ),
        (
            Part::Shrunk,
            1,
            18446744073709551615,
            b"store/00changelog.i: shrunk 1 18446744073709551615",
        ),
    ];
    for (part, number, place, wanted) in table {
        let path = given(StorePath::new(alloc, b"store/00changelog.i"))?;
        let damage = Damage {
            path,
            what: What {
                part,
                number,
                place,
            },
        };
        let mut text = Vec::new(alloc);
        given(push_damage(&mut text, &damage))?;
        assert_eq!(rt; text.as_slice(), wanted);
    }
    Ok(())
}
