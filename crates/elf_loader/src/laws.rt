// What the definitions of loading mean. A law is the contract of a function that does nothing.
ghost use Rattle.std.specs.Prelude.{
  ◌≡◌,
  ◌+◌,
  ◌*◌,
  ◌<◌,
  ◌≤◌,
  ◌^◌,
  ℕ,
  [],
  ◌∷◌,
  length,
  slice_index,
  None,
  Some,
  IsSome,
  All,
};
ghost use Rattle.rv32_hart.specs.Code.{word_at};
ghost use Rattle.elf_loader.specs.Header.{header_of};
ghost use Rattle.elf_loader.specs.Segments.{segments_of};
ghost use Rattle.elf_loader.specs.Refusal.{refusal};
ghost use Rattle.elf_loader.specs.Loaded.{loaded_bytes, fetch_ranges, code_of, IsInMemory, IsZeroElsewhere};
ghost use Rattle.elf_loader.specs.Plain.{plain, words_bytes, memory_with, IsPlainIn};

/// A law: a plain image is loaded, with its words at its address, where they may be fetched, and zeros elsewhere.
pub fn plain_image_is_loaded(at: u32, words: &[u32], base: u32, size: u32)
    requires plain { IsPlainIn at (length words.now) base size }
    requires room { base + size ≤ 2 ^ 32 }
    ensures accepted { refusal (plain at words.now) base size ≡ None }
    ensures entry { (header_of (plain at words.now)).e_entry ≡ at }
    ensures ranges { fetch_ranges (segments_of (plain at words.now))
        ≡ (at, 4 * length words.now) ∷ [] }
    ensures bytes { loaded_bytes (plain at words.now) base size
        ≡ memory_with base size at (words_bytes words.now) }
    ensures words { (i : ℕ) → i < length words.now
        → word_at (code_of (plain at words.now) base size) (at + 4 * i)
        ≡ Some (slice_index words.now i) }
{}

/// A law: of a file that isn't refused, memory has each live segment's bytes at its addresses, whatever the segments'
/// order, and zeros elsewhere.
pub fn segments_are_in_memory(file: &[u8], base: u32, size: u32)
    requires { refusal file.now base size ≡ None }
    ensures inside { All (IsInMemory file.now base (loaded_bytes file.now base size))
        (segments_of file.now) }
    ensures elsewhere { IsZeroElsewhere base size (loaded_bytes file.now base size)
        (segments_of file.now) }
{}

/// A law: of a file that isn't refused, the instruction at the entry can be fetched.
pub fn entry_can_be_fetched(file: &[u8], base: u32, size: u32)
    requires { refusal file.now base size ≡ None }
    ensures { IsSome (word_at (code_of file.now base size) (header_of file.now).e_entry) }
{}
