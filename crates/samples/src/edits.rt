ghost use Rattle.std.specs.Prelude.{◌≡◌, IfOk};
ghost use Rattle.samples.specs.Edits.{with_bytes, sized};

use std::alloc::{AllocError, Global};

// The file with those bytes changed, and then cut or made longer with zeros to that length.
pub fn edited(
    alloc: Global,
    file: &[u8],
    edits: &[(usize, u8)],
    length: usize,
) -> Result<Vec<u8>, AllocError>
    ensures { IfOk result (λ v. v.items ≡ sized length (with_bytes edits.now file.now)) }
{
    let mut bytes = Vec::from_slice(alloc, file)?;
    for (place, value) in edits {
        if *place < bytes.len() {
            bytes[*place] = *value;
        }
    }
    bytes.resize(length, 0)?;
    Ok(bytes)
}

#[cfg(test)]
mod tests {
    use super::*;
    use std::test::Fail;

    #[test]
    fn changed_cut_and_longer(rt: HostRuntime) -> Result<(), Fail> {
        let cut = edited(rt.alloc(), &[1, 2, 3], &[(0, 7), (3, 8)], 2)?;
        assert_eq!(rt; cut.as_slice(), [7, 2].as_slice());
        let longer = edited(rt.alloc(), &[1, 2, 3], &[(2, 7), (2, 9)], 5)?;
        assert_eq!(rt; longer.as_slice(), [1, 2, 9, 0, 0].as_slice());
        Ok(())
    }
}
