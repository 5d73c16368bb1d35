//! A request for one file, between the channels of the program.

ghost use Rattle.pdbdump_cli.specs.Requests.{IsDone};
ghost use Rattle.pdbdump_cli.specs.Served.{IsFileServed};

use crate::command::Request;
use crate::declared::declare_in;
use crate::identified::serve_id;
use crate::input_file::InputFile;
use crate::laid_out::show_in;
use crate::listed::list;
use crate::located::locate_in;
use crate::matched::match_in;
use crate::selected::select_in;
use crate::sentences::tell;
use crate::served::end_as;
use crate::validated::judge;
use pdb_container::{Result, Source};
use pdb_output::Output;
use pdbdump_rows::Form;
use std::alloc::Global;
use std::io::Write;

/// Serves a request for a file that is open, of which it reads what it needs. Returns the status with
/// which the program ends: 1 if the file is of another format than `id` reads, or not the expected
/// one, or not the one that an image names, if `validate` finds an error in it, or with `--strict` a
/// warning, if a layout or a type to declare wasn't found, or if the file doesn't have a byte; or
/// after a fault of the file or of a channel, which is written to the error channel, behind what was
/// written before it, unless it is that the output was closed.
fn serve_opened<S: Source + Drop, O: Write, E: Write>(
    alloc: Global,
    request: &Request<'_, '_>,
    form: Form,
    file: InputFile<S>,
    out: &mut Output<O>,
    err: &mut Output<E>,
) -> u8
    ensures { IsDone form request.now (S.state file.source) out.old out.new err.old err.new result }
{
    match request {
        Request::List(command) => {
            let listed = list(alloc, file, *command, form, out, err);
            end_as(alloc, listed, out, err)
        }
        Request::Select(asked) => {
            let listed = select_in(alloc, file, asked, form, out, err);
            end_as(alloc, listed, out, err)
        }
        Request::Identify(asked) => serve_id(alloc, file, asked, form, out, err),
        Request::Validate(options, path) => judge(alloc, *options, form, path, file, out, err),
        Request::Layout(asked) => {
            let shown = show_in(alloc, file, asked, form, out, err);
            end_as(alloc, shown, out, err)
        }
        Request::Declare(asked) => {
            let declared = declare_in(alloc, file, asked, out, err);
            end_as(alloc, declared, out, err)
        }
        Request::Locate(offsets) => {
            let located = locate_in(alloc, file, offsets, form, out, err);
            end_as(alloc, located, out, err)
        }
        Request::Match(asked) => {
            let matched = match_in(alloc, file, asked, form, out);
            end_as(alloc, matched, out, err)
        }
    }
}

/// Serves a request for a file as `serve_opened` does, or reports why it can't be opened.
pub fn serve<S: Source + Drop, O: Write, E: Write>(
    alloc: Global,
    request: &Request<'_, '_>,
    form: Form,
    opened: Result<InputFile<S>>,
    out: &mut Output<O>,
    err: &mut Output<E>,
) -> u8
    ensures { IsFileServed S.state (λ file. IsDone form request.now file out.old out.new err.old err.new result)
        opened out.old out.new err.old err.new result }
{
    match opened {
        Ok(file) => serve_opened(alloc, request, form, file, out, err),
        Err(unopened) => tell(alloc, &unopened, err),
    }
}
