// The map's refusals, and the CRC's published check value.
use pagemap::crc::crc32;
use pagemap::listing::listing;
use std::alloc::{AllocError, Global};
use std::test::Fail;

#[test]
fn the_published_check_value(rt: HostRuntime) {
    assert_eq!(rt; crc32(b"123456789"), 0xCBF4_3926);
    assert_eq!(rt; crc32(b""), 0);
}

fn arguments(heap: Global, words: &[&str]) -> Result<Vec<String>, AllocError> {
    words
        .iter()
        .map(|word| String::from_str(heap, word))
        .try_collect(heap)
}

// The line printed in place of a listing of a one-byte image.
fn refused(heap: Global, words: &[&str]) -> Result<String, Fail> {
    let Err(reason) = listing(heap, &mut [0], &arguments(heap, words)?) else {
        return Err(Fail::new("there is a listing"));
    };
    Ok(reason.to_string(heap)?)
}

#[test]
fn arguments_are_refused_by_name(rt: HostRuntime) -> Result<(), Fail> {
    let heap = rt.alloc();
    let three = "give three hexadecimal bytes, CBAR CBR BBR, or none";
    assert_eq!(rt; refused(heap, &["84"])?.as_str(), three);
    assert_eq!(rt; refused(heap, &["84", "7C"])?.as_str(), three);
    assert_eq!(rt; refused(heap, &["84", "7C", "20", "0"])?.as_str(), three);
    assert_eq!(rt;
        refused(heap, &["8G", "7C", "20"])?.as_str(),
        "CBAR is not a byte in one or two hexadecimal digits"
    );
    assert_eq!(rt;
        refused(heap, &["84", "", "20"])?.as_str(),
        "CBR is not a byte in one or two hexadecimal digits"
    );
    assert_eq!(rt;
        refused(heap, &["84", "7C", "020"])?.as_str(),
        "BBR is not a byte in one or two hexadecimal digits"
    );
    assert_eq!(rt;
        refused(heap, &["84", "80", "FF"])?.as_str(),
        "CBR is above 7F"
    );
    assert_eq!(rt;
        refused(heap, &["FF", "7f", "ff"])?.as_str(),
        "BBR is above 7F"
    );
    Ok(())
}

#[test]
fn a_long_image_is_refused_before_the_arguments_are_read(rt: HostRuntime) -> Result<(), Fail> {
    let heap = rt.alloc();
    let mut image = vec![in heap; 0u8; 524_289]?;
    let Err(reason) = listing(heap, &mut image, &arguments(heap, &["84"])?) else {
        return Err(Fail::new("there is a listing"));
    };
    assert_eq!(rt; reason.to_string(heap)?.as_str(), "too long");
    Ok(())
}
