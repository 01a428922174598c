// What is in force where, and what is drawn, said without the state that the reader keeps.
ghost use Rattle.dpl_cif.specs.Scopes.{DefinitionsRestore, DefinitionsScale, OutsideIsOneToOne, LayersAreChosen, FiguresAreDrawn};

/// A definition has its own scale and no layer but its own, and restores at its end what held before it; outside of
/// definitions lengths are one to one; a figure is drawn exactly where its layer is the chosen one.
pub fn scope_rules()
    ensures restore { DefinitionsRestore }
    ensures scale { DefinitionsScale }
    ensures outside { OutsideIsOneToOne }
    ensures layers { LayersAreChosen }
    ensures figures { FiguresAreDrawn }
{}
