// Laws on the grids that sizing lays over points: each has a cell for every point.
#![tactic(auto)]
