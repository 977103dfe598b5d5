// What the program reads: the script, and the files that it names.
use anyhow::anyhow;
use script::assembled::Script;
use script::filled::Filled;
use script::put::{Put, What};
use script::wrong::{BadLine, Refused, Wrong};
use std::alloc::AllocError;
use std::io::Read;
use std::{env, fs};

// The script's bytes.
pub(crate) fn script_text(rt: &HostRuntime) -> anyhow::Result<Vec<u8>> {
    let arguments: Vec<String> = env::args(rt)?.skip(1).collect(rt.alloc())?;
    match arguments.as_slice() {
        [] => {
            let mut text = Vec::new(rt.alloc());
            rt.stdin().read_to_end(&mut text)?;
            Ok(text)
        }
        [name] => Ok(fs::read(rt, name.as_str())?),
        _ => Err(anyhow!("give one file, or none")),
    }
}

// The bytes of the file that a put names; none where it names no file.
fn image(rt: &HostRuntime, put: &Put) -> Result<Vec<u8>, BadLine> {
    match &put.what {
        What::Image(name) => {
            fs::read(rt, name.as_str()).map_err(|_| BadLine {
                line: put.line,
                wrong: Wrong::Unreadable,
            })
        }
        What::Bytes(_) | What::Fill { .. } => Ok(Vec::new(rt.alloc())),
    }
}

fn add_images(rt: &HostRuntime, files: &mut Vec<Vec<u8>>, puts: &[Put]) -> Result<(), Refused> {
    for put in puts {
        let bytes = image(rt, put)?;
        files.push(bytes).map_err(AllocError::from)?;
    }
    Ok(())
}

// A file for each put, those of the second board behind the others.
fn images(rt: &HostRuntime, script: &Script) -> Result<Vec<Vec<u8>>, Refused> {
    let mut files = Vec::new(rt.alloc());
    add_images(rt, &mut files, &script.puts)?;
    if let Some(puts) = &script.second {
        add_images(rt, &mut files, puts)?;
    }
    Ok(files)
}

// The boards, filled, or the first line whose file cannot be read or is too long.
pub(crate) fn boards(rt: &HostRuntime, script: &Script) -> Result<Filled, Refused> {
    let files = images(rt, script)?;
    script.boards(rt.alloc(), &files)
}
