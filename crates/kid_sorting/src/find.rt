ghost use Rattle.std.specs.Prelude.{◌≡◌, map};
ghost use Rattle.std.specs.Option.{option_map};
ghost use Rattle.kid_term.specs.DefView.{plain_def};
ghost use Rattle.kid_term.specs.Definition.{definition_of};

use kid_term::Def;
use kid_term::substitute::is_same;
use kid_value::Text;

/// The latest definition of a name among definitions in their order, or `None` where no definition has it.
pub fn find_definition<'a>(definitions: &'a [Def], name: &Text) -> Option<&'a Def>
    ensures { option_map (λ d. plain_def d.now) result ≡ definition_of name.now (map plain_def definitions.now) }
{
    let mut rest = definitions;
    while let Some((latest, earlier)) = rest.split_last() {
        if is_same(name, &latest.name) {
            return Some(latest);
        }
        rest = earlier;
    }
    None
}
