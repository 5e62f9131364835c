// The line for words that are no command.
ghost use Rattle.std.specs.Prelude.{◌≡◌};
ghost use Rattle.bqd.specs.Usage.{usage_text};

/// The line that names the commands, for a user whose words are none.
pub fn usage() -> &'static [u8]
    ensures { result.now ≡ usage_text }
{
    b"usage: bqd run <hands> <batch> | check | play | gen <n> | drill <n> <hands> <batch>\n"
}
