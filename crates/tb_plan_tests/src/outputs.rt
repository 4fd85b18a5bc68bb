//! Tests of `tb_face`.

use crate::shared::smallest_options;
use std::alloc::Global;
use std::test::Fail;
use tb_face::{
    DECLARATION, PathEntry, SCRIPT, info_path, new_info_path, options_digest, options_text,
    output_path, signature, stem_of, version,
};
use tb_text::{Digest, List, Name, Path, PathFault};

// The standard's own examples of SHA-256: a text of one block, and the empty text.
#[test]
fn digests_are_those_of_the_standard(rt: HostRuntime) -> Result<(), Fail> {
    assert!(rt;
        is_written(
            rt.alloc(),
            version(b"abc".as_slice()),
            "ba7816bf8f01cfea414140de5dae2223b00361a396177a9cb410ff61f20015ad"
        )
    );
    assert!(rt;
        is_written(
            rt.alloc(),
            signature(b"".as_slice()),
            "e3b0c44298fc1c149afbf4c8996fb92427ae41e4649b934ca495991b7852b855"
        )
    );
    Ok(())
}

fn is_written(alloc: Global, digest: Digest, text: &str) -> bool {
    match hex::encode(alloc, digest.as_slice()) {
        Ok(digits) => digits.as_str() == text,
        Err(_) => false,
    }
}

// The digest is that of `printf '..' | sha256sum`.
#[test]
fn options_are_spelled_and_digested(rt: HostRuntime) -> Result<(), Fail> {
    let mut options = smallest_options(rt.alloc())?;
    let text = options_text(rt.alloc(), &options)?;
    assert!(rt;
        text.as_slice()
            == b"{\"outDir\":\"dist\",\"paths\":[],\"project\":\"tsconfig.json\",\"rootDir\":\"\"}".as_slice()
    );
    let digest = options_digest(rt.alloc(), &options)?;
    assert!(rt;
        is_written(
            rt.alloc(),
            digest,
            "da63203dc008c1b6c8cf9d5721928538f32bf662e66073ab65130a6732d4e545"
        )
    );

    let mut targets = List::new(rt.alloc());
    targets.push(Name::copy_of(rt.alloc(), "core/src/*")?)?;
    targets.push(Name::copy_of(rt.alloc(), "core/*")?)?;
    let key = Name::copy_of(rt.alloc(), "@core/*")?;
    options.paths.push(PathEntry { key, targets })?;
    let text = options_text(rt.alloc(), &options)?;
    assert!(rt;
        text.as_slice()
            == b"{\"outDir\":\"dist\",\"paths\":[[\"@core/*\",[\"core/src/*\",\"core/*\"]]],\"project\":\"tsconfig.json\",\"rootDir\":\"\"}".as_slice()
    );
    Ok(())
}

// A root, a path, and the stem, if there is one.
const STEMS: [(&str, &str, Option<&str>); 13] = [
    ("", "a.ts", Some("a")),
    ("", "src/a/index.ts", Some("src/a/index")),
    ("src", "src/a/index.ts", Some("a/index")),
    ("src", "src/.ts", Some("")),
    ("", ".ts", Some("")),
    ("src", "srcs/a.ts", None),
    ("src", "src.ts", None),
    ("a.ts", "a.ts", None),
    ("", "a.d.ts", None),
    ("", "a.tsx", None),
    ("", "x/.ts", None),
    ("", "x/..ts", None),
    ("x", "x/...ts", None),
];

#[test]
fn stems_are_counted_from_the_root(rt: HostRuntime) -> Result<(), Fail> {
    for (root, path, stem) in STEMS {
        let root = Path::read(rt.alloc(), root)?;
        let path = Path::read(rt.alloc(), path)?;
        let found = stem_of(rt.alloc(), &root, &path)?;
        assert!(rt; found.as_ref().map(Path::as_str) == stem);
    }
    Ok(())
}

#[test]
fn outputs_stand_in_the_folder(rt: HostRuntime) -> Result<(), Fail> {
    let root = Path::read(rt.alloc(), "")?;
    let dist = Path::read(rt.alloc(), "p/dist")?;
    assert_eq!(rt;
        output_path(rt.alloc(), &root, "a", SCRIPT)?.as_str(),
        "a.js"
    );
    assert_eq!(rt;
        output_path(rt.alloc(), &dist, "src/a", DECLARATION)?.as_str(),
        "p/dist/src/a.d.ts"
    );
    assert_eq!(rt;
        output_path(rt.alloc(), &dist, "", SCRIPT)?.as_str(),
        "p/dist/.js"
    );
    assert_eq!(rt;
        info_path(rt.alloc(), &root)?.as_str(),
        "tsconfig.tsbuildinfo"
    );
    assert_eq!(rt;
        info_path(rt.alloc(), &dist)?.as_str(),
        "p/dist/tsconfig.tsbuildinfo"
    );
    assert_eq!(rt;
        new_info_path(rt.alloc(), &dist)?.as_str(),
        "p/dist/tsconfig.tsbuildinfo.new"
    );
    Ok(())
}

// A folder, a stem and an ending that make no path.
const NO_OUTPUTS: [(&str, &str, &str); 8] = [
    ("", "a//b", SCRIPT),
    ("", "/a", SCRIPT),
    ("", "../a", DECLARATION),
    ("p/dist", "./a", SCRIPT),
    ("p/dist", "a\\b", SCRIPT),
    ("p/dist", "a\n", DECLARATION),
    ("p/dist", "", ""),
    ("p/dist", "..", ""),
];

#[test]
fn what_makes_no_path_is_no_output(rt: HostRuntime) -> Result<(), Fail> {
    for (folder, stem, ending) in NO_OUTPUTS {
        let folder = Path::read(rt.alloc(), folder)?;
        let found = output_path(rt.alloc(), &folder, stem, ending);
        assert!(rt; matches!(found, Err(PathFault::BadPath)), "{stem}");
    }
    Ok(())
}

// A path has at most 1,024 bytes.
#[test]
fn outputs_have_the_bytes_of_a_path(rt: HostRuntime) -> Result<(), Fail> {
    let alloc = rt.alloc();
    let dist = Path::read(alloc, "dist")?;
    let stem = "b".repeat(alloc, 1014)?;
    let found = output_path(alloc, &dist, stem.as_str(), DECLARATION)?;
    assert_eq!(rt; found.as_str().len(), 1024);
    let stem = "b".repeat(alloc, 1015)?;
    let found = output_path(alloc, &dist, stem.as_str(), DECLARATION);
    assert!(rt; matches!(found, Err(PathFault::BadPath)));
    let found = output_path(alloc, &dist, stem.as_str(), SCRIPT)?;
    assert_eq!(rt; found.as_str().len(), 1023);
    Ok(())
}

// Whether a path of so many bytes was found, or that there is none.
fn is_of(found: Result<Path, PathFault>, bytes: Option<usize>) -> bool {
    match found {
        Ok(path) => bytes == Some(path.as_str().len()),
        Err(PathFault::BadPath) => bytes.is_none(),
        Err(PathFault::NoMemory) => false,
    }
}

// The bytes of a folder, of its info's path, and of the path under which that is written first.
const INFOS: [(usize, Option<usize>, Option<usize>); 4] = [
    (999, Some(1020), Some(1024)),
    (1000, Some(1021), None),
    (1003, Some(1024), None),
    (1004, None, None),
];

#[test]
fn infos_have_the_bytes_of_a_path(rt: HostRuntime) -> Result<(), Fail> {
    let alloc = rt.alloc();
    for (bytes, info, new_info) in INFOS {
        let name = "d".repeat(alloc, bytes)?;
        let folder = Path::read(alloc, name.as_str())?;
        assert!(rt; is_of(info_path(alloc, &folder), info), "{bytes}");
        assert!(rt; is_of(new_info_path(alloc, &folder), new_info), "{bytes}");
    }
    Ok(())
}
