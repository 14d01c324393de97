//! Names that are inserted, found and copied, with ample memory.

use mr_base::CloneIn;
use name_places::NamePlaces;
use std::test::Fail;

#[test]
fn names_are_found(rt: HostRuntime) -> Result<(), Fail> {
    let alloc = rt.alloc();
    let mut places = NamePlaces::new(alloc);
    places.insert(alloc, b"users", 3)?;
    if places.place(b"promo").is_none() {
        places.insert(alloc, b"promo", 5)?;
    }
    let copy = places.clone_in(alloc)?;
    assert!(rt; copy.place(b"users") == Some(3));
    assert!(rt; copy.place(b"promo") == Some(5));
    assert!(rt; copy.place(b"user").is_none());
    Ok(())
}
