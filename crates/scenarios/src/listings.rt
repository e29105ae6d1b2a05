// Listings of small images.
use listing::{ListingError, listing};
use refusal::Refusal;
use std::alloc::Global;
use std::process::Abort;
use std::test::Fail;

// Checks how a listing begins and ends, and how many lines it has.
fn check_listing(
    rt: &impl Abort,
    heap: Global,
    image: &[u16],
    begins: &str,
    ends: &str,
    lines: usize,
) -> Result<(), Fail> {
    let text = listing(heap, image)?;
    assert!(rt; text.as_str().starts_with(begins));
    assert!(rt; text.as_str().ends_with(ends));
    assert_eq!(rt; text.as_str().lines().count(), lines);
    Ok(())
}

#[test]
fn one_word_everywhere(rt: HostRuntime) -> Result<(), Fail> {
    let text = listing(rt.alloc(), &[0xB000; 256])?;
    assert_eq!(rt; text.as_str(), "00..FF B000 JMP 0x00\n");
    Ok(())
}

#[test]
fn ends_of_listings(rt: HostRuntime) -> Result<(), Fail> {
    let mut image = [0x0000; 256];
    image[255] = 0xB000;
    let zero = "00 0000 ADD r0, #0x00\n01 0000 ADD r0, #0x00\n";
    check_listing(
        &rt,
        rt.alloc(),
        &image,
        zero,
        "FE 0000 ADD r0, #0x00\nFF B000 JMP 0x00\n",
        256,
    )?;
    image[0] = 0x7201;
    image[254] = 0xB000;
    check_listing(
        &rt,
        rt.alloc(),
        &image,
        "00 7201 ?\n",
        "FD 0000 ADD r0, #0x00\nFE..FF B000 JMP 0x00\n",
        255,
    )
}

#[test]
fn images_of_another_size(rt: HostRuntime) {
    let short = listing(rt.alloc(), &[0xB000; 255]);
    assert!(rt; matches!(short, Err(ListingError::Refused(Refusal::ImageSize))));
    let long = listing(rt.alloc(), &[0xB000; 257]);
    assert!(rt; matches!(long, Err(ListingError::Refused(Refusal::ImageSize))));
}
