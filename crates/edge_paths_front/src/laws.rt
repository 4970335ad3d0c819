//! What the paths of the second graph say of the edge-disjoint paths of the graph, as laws.

ghost use Rattle.std.specs.Prelude.{◌≡◌, ℕ, List, length};
ghost use Rattle.graph_core.specs.NamedGraphs.{NamedGraph};
ghost use Rattle.graph_theory.specs.Walks.{edge_at};
ghost use Rattle.path_theory.specs.Classes.{class_of, is_terminal};
ghost use Rattle.path_theory.specs.Families.{IsLargestPathFamily, IsPathFamily};
ghost use Rattle.edge_path_theory.specs.Darts.{IsEdgePathFamily, IsLargestEdgePathFamily};
ghost use Rattle.edge_paths_front.specs.SecondGraphs.{second_graph};

/// Each family of disjoint paths of the second graph gives one of edge-disjoint paths of the graph with as many paths, and the other way
/// round. So largest families of both have the same number of paths.
pub fn both_graphs_have_the_same_largest_number()
    ensures back { (g : NamedGraph) (paths : List (List ℕ))
        → IsPathFamily (second_graph g).ends (is_terminal (second_graph g).classes) (class_of (second_graph g).classes) paths
        → (others : List (List ℕ)) × IsEdgePathFamily (length g.ends) (edge_at g.ends) (is_terminal g.classes) (class_of g.classes) others
        × (length others ≡ length paths) }
    ensures forth { (g : NamedGraph) (others : List (List ℕ))
        → IsEdgePathFamily (length g.ends) (edge_at g.ends) (is_terminal g.classes) (class_of g.classes) others
        → (paths : List (List ℕ))
        × IsPathFamily (second_graph g).ends (is_terminal (second_graph g).classes) (class_of (second_graph g).classes) paths
        × (length paths ≡ length others) }
    ensures largest { (g : NamedGraph) (paths others : List (List ℕ))
        → IsLargestPathFamily (second_graph g).ends (is_terminal (second_graph g).classes) (class_of (second_graph g).classes) paths
        → IsLargestEdgePathFamily (length g.ends) (edge_at g.ends) (is_terminal g.classes) (class_of g.classes) others
        → length paths ≡ length others }
{}
