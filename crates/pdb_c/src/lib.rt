//! The library for programs in other languages: the calls that it exports.
#![tactic(auto)]

/// Tells how a call ended that is about what a handle holds: as an expression of its content says,
/// or with `NOT_OPEN` if the handle holds nothing of that kind.
macro_rules! asked {
    ($handle:expr, $alloc:ident, $kind:ident($content:pat) => $told:expr) => {
        match $handle.take($alloc) {
            Some(mut content) => {
                let told = match &mut *content {
                    pdb_handles::Content::$kind($content) => $told,
                    _ => pdb_handles::Fault::status(pdb_handles::NOT_OPEN),
                };
                $handle.put(content);
                told
            }
            None => pdb_handles::Fault::status(pdb_handles::NOT_OPEN),
        }
    };
}

/// Keeps in the handle how such a call ended.
macro_rules! ask {
    ($handle:expr, $alloc:ident, $kind:ident($content:pat) => $told:expr) => {{
        let told = asked!($handle, $alloc, $kind($content) => $told);
        $handle.keep(told)
    }};
}

/// Opens a handle that holds nothing, and returns how that ended.
macro_rules! open {
    ($handle:expr, $alloc:ident, $opened:expr) => {
        if $handle.is_open() {
            pdb_handles::Fault::status(pdb_handles::ALREADY_OPEN)
        } else {
            let opened = $opened;
            $handle.open($alloc, opened)
        }
    };
}

/// Opens a handle to what is read of a file by its layout, and keeps in it how that ended.
macro_rules! open_from {
    ($file:ident, $handle:ident, $alloc:ident, $layout:pat => $opened:expr) => {{
        let told = asked!($file.handle, $alloc, File($layout) => open!($handle, $alloc, $opened));
        $handle.keep(told)
    }};
}

mod addresses;
mod definitions;
mod file;
mod frames;
mod names;
mod records;
mod status;
mod tables;
