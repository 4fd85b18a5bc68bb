ghost use Rattle.std.specs.Prelude.{◌≡◌};
ghost use Rattle.tb_face.specs.Digests.{sha};

use sha2::{Digest as Hasher, Sha256};
use tb_text::Digest;

/// The version of a file: the SHA-256 of its bytes. It takes no memory.
pub fn version(text: &[u8]) -> Digest
    ensures { result ≡ sha text.now }
{
    digest_of(text)
}

/// The signature of a file: the SHA-256 of its declaration text. It takes no memory.
pub fn signature(text: &[u8]) -> Digest
    ensures { result ≡ sha text.now }
{
    digest_of(text)
}

pub(crate) fn digest_of(text: &[u8]) -> Digest
    ensures { result ≡ sha text.now }
{
    let mut hasher = Sha256::new();
    hasher.update(text);
    Digest::from_bytes(hasher.finalize())
}
