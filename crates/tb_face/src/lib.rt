//! What a build keeps of a project, and how it is named: build infos, versions and signatures, the digest of a
//! project's options, stems and the paths of outputs.
#![tactic(auto)]

mod digests;
mod infos;
mod options;
mod outputs;

pub use digests::{signature, version};
pub use infos::{BUILDER, Entry, Info, InfoFault, Reach};
pub use options::{Options, PathEntry, one_options, options_digest, options_text};
pub use outputs::{
    DECLARATION, INFO, NEW_INFO, SCRIPT, info_path, new_info_path, output_path, stem_of, stem_text,
    stems_of_paths,
};
