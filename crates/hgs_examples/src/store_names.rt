use crate::given::given;
use hgs_path::name::{Ext, store_name};
use std::test::Fail;

#[test]
fn name_of_a_data_file(rt: HostRuntime) -> Result<(), Fail> {
    let name = given(store_name(rt.alloc(), b"foo.i/Bar", Ext::D))?;
    assert!(rt; name.bytes() == b"store/data/foo.i.hg/_bar.d".as_slice());
    Ok(())
}
