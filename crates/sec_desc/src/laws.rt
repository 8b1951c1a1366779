//! What writing and reading have to do with each other, and with the bytes.
ghost use Rattle.std.specs.Prelude.{ℕ};
ghost use Rattle.sec_desc.specs.declared.value.Descriptor.{Descriptor};
ghost use Rattle.sec_desc.specs.Laws.{AreExactAces, AreExactAcls, AreExactSids, IsReadExactly};
ghost use Rattle.sec_desc.specs.Laws.{IsReadBack};
ghost use Rattle.sec_desc.specs.Writing.{IsValue, IsWritable};

/// Each item is read exactly where its bytes stand. It does nothing.
pub fn reading_is_exact(bytes: &[u8])
    ensures descriptors { IsReadExactly bytes.now }
    ensures identities { AreExactSids bytes.now }
    ensures lists { AreExactAcls bytes.now }
    ensures entries { AreExactAces bytes.now }
{}

/// A descriptor that was written is read back, as far as its parts were asked for. It does nothing.
pub fn written_is_read()
    ensures { (d : Descriptor) (parts : ℕ) → IsWritable d → IsValue d → IsReadBack d parts }
{}
